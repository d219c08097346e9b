//! A client that lets its store continue over the second file.
ghost use Rattle.std.specs.Prelude.{◌≡◌};
ghost use Rattle.store_file.specs.Moving.{RotatesAbove};
ghost use Rattle.store_client.specs.Caller.{Keeps};

use crate::client::Client;
use disk_trait::LogDisk;
use index_layer::Index;
use sessions::Start;
use std::sync::Wait;
use store_file::{NotRotatedOver, Rotation, rotate_above};

impl<'s, I: Index, D: LogDisk, O: Start> Client<'s, I, D, O> {
    /// Continues the store over its second file, if its log has more than `records` records and it has such a file. The
    /// objects and the leaves are written there as a fresh log. Then the log of the first file is emptied, and it is the
    /// second file from now on. The history and its places go on. The other clients' calls wait meanwhile.
    ///
    /// After `Stays` the store goes on over its own file. After the other two it takes no more calls.
    pub fn rotate_above<R: Wait>(
        &mut self,
        rt: &R,
        records: u64,
    ) -> Result<Rotation, NotRotatedOver>
        ensures rotated { RotatesAbove D.drive I.WIDTH records self.old.pass self.new.pass result }
        ensures rest { self.new ≡ record self.old { pass = self.new.pass } }
        ensures client { Keeps self.old self.new }
    {
        let store = self.store;
        rotate_above(rt, store, &mut self.pass, records)
    }
}
