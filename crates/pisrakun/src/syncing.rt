//! A sync of a store: the records that wait are written.
ghost use Rattle.std.specs.Prelude.{◌≡◌, IfOk};
ghost use Rattle.sessions.specs.Syncs.{SyncsPass, WasDurable};
ghost use Rattle.store_client.specs.Caller.{Keeps, world_seen};
ghost use Rattle.pisrakun.specs.Now.{IsWhole};

use crate::object_store::ObjectStore;
use crate::session::Session;
use commit_book::BookFault;
use disk_trait::LogDisk;
use index_layer::Index;
use sessions::Start;
use std::sync::Wait;

impl<I: Index, D: LogDisk, O: Start> ObjectStore<I, D, O> {
    /// Writes all records that wait, by one append of four device calls, and returns the place of the last call. From
    /// then on each crash leaves every change up to this place. If none waits, no device call is made: so it is in a
    /// `FileStore` and in a `MemoryStore`. After `Disk` the store takes no more calls.
    pub fn sync<R: Wait>(&mut self, rt: &R) -> Result<u64, BookFault>
        ensures synced { SyncsPass self.old.pass self.new.pass result }
        ensures durable { IfOk result (λ place. WasDurable D.drive I.WIDTH self.new.pass) }
        ensures rest { self.new ≡ record self.old { pass = self.new.pass } }
        ensures now { world_seen self.new.pass ≡ world_seen self.old.pass }
        ensures whole { IsWhole self.old }
        ensures store { Keeps self.old self.new }
    {
        self.store.sync(rt, &mut self.pass)
    }
}

impl<'w, I: Index, D: LogDisk, O: Start> Session<'w, I, D, O> {
    /// Writes all records that wait, those of other sessions too, as `ObjectStore::sync`.
    pub fn sync<R: Wait>(&mut self, rt: &R) -> Result<u64, BookFault>
        ensures same { self.new.store.ghost_name ≡ self.old.store.ghost_name }
        ensures synced { SyncsPass self.old.store.now.pass self.new.store.now.pass result }
        ensures durable { IfOk result (λ place. WasDurable D.drive I.WIDTH self.new.store.now.pass) }
        ensures rest { self.new.store.now ≡ record self.old.store.now { pass = self.new.store.now.pass } }
        ensures now { world_seen self.new.store.now.pass ≡ world_seen self.old.store.now.pass }
        ensures label { self.new.label ≡ self.old.label }
    {
        self.store.sync(rt)
    }
}
