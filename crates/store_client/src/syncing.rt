//! A sync by a client.
ghost use Rattle.std.specs.Prelude.{◌≡◌, IfOk};
ghost use Rattle.sessions.specs.Syncs.{SyncsPass, WasDurable};
ghost use Rattle.store_client.specs.Caller.{Keeps};

use crate::client::Client;
use commit_book::BookFault;
use disk_trait::LogDisk;
use index_layer::Index;
use sessions::Start;
use std::sync::Wait;

impl<'s, I: Index, D: LogDisk, O: Start> Client<'s, I, D, O> {
    /// Writes all records that wait for a sync, whoever made their changes, by one append. Returns the place up to which
    /// every change is in the file, which is at least this client's last place. If no record waits, no device call is
    /// made: so it is in a store that writes each record at once. `Disk` closes the store.
    pub fn sync<R: Wait>(&mut self, rt: &R) -> Result<u64, BookFault>
        ensures synced { SyncsPass self.old.pass self.new.pass result }
        ensures durable { IfOk result (λ place. WasDurable D.drive I.WIDTH self.new.pass) }
        ensures rest { self.new ≡ record self.old { pass = self.new.pass } }
        ensures client { Keeps self.old self.new }
    {
        let store = self.store;
        store.sync(rt, &mut self.pass)
    }
}
