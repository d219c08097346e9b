//! Threads that work at a store, each with a client of its own.
ghost use Rattle.std.specs.Prelude.{◌≡◌, IfOk, IfErr};
ghost use Rattle.store_client.specs.Caller.{Keeps};
ghost use Rattle.pisrakun.specs.Team.{TeamWorked};

use crate::object_store::ObjectStore;
use disk_trait::LogDisk;
use index_layer::Index;
use sessions::Start;
use std::sync::Wait;
use std::thread::Threads;
use store_client::{Client, Work};

/// The parts that a client has which a store lends: all but one.
pub(crate) const PARTS: u64 = 65_535;

impl<I: Index + Send, D: LogDisk + Send, O: Start + Send> ObjectStore<I, D, O> {
    /// Lets each of these work in a thread of its own, with a client of its own that has seen what the store has, and
    /// returns all in the same order when they are done. Their sessions count from `first`, and continue with 0 after
    /// 255. If there are more than 65,534 works, or memory runs out, nobody has worked, and the works come back. No work
    /// may wait for another one, since they run one after another if no thread can be created.
    pub fn work_all<W: Work<R> + Send, R: Threads + Wait + Sync>(
        &mut self,
        rt: &R,
        first: u8,
        works: Vec<W>,
    ) -> Result<Vec<W>, Vec<W>>
        ensures store { Keeps self.old self.new }
        ensures did { IfOk result (λ done. TeamWorked W.does first self.old self.new works.items done.items) }
        ensures back { IfErr result (λ back. (back.items ≡ works.items) × (self.new ≡ self.old)) }
    {
        if works.len() as u64 >= PARTS {
            return Err(works);
        }
        let pass = self.store.split_parts(&mut self.pass, PARTS);
        let mut boss = Client::new(&self.store, self.alloc, pass, self.session);
        let done = boss.work_all(rt, first, works);
        self.store.join_pass(&mut self.pass, boss.into_pass());
        done
    }
}
