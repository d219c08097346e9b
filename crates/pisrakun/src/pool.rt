//! Threads that share the clients of a pool.
ghost use Rattle.std.specs.Prelude.{◌≡◌, ◌<◌, OnOk, OnErr};
ghost use Rattle.store_client.specs.Caller.{Keeps};
ghost use Rattle.store_client.specs.Pools.{AllServed, HasHosted};

use crate::object_store::ObjectStore;
use crate::team::PARTS;
use disk_trait::LogDisk;
use index_layer::Index;
use sessions::Start;
use std::marker::Brand;
use std::sync::Wait;
use std::thread::Threads;
use store_client::{Client, Lender, Service};
use zorder::Memory;

// The most clients of a pool: the one that opens it keeps a part.
const MOST_IN_POOL: u16 = 65_534;

impl<I: Index + Send, D: LogDisk + Send, O: Start + Send> ObjectStore<I, D, O> {
    /// Lets each of a crew work in a thread of its own. All share a pool of so many clients: each takes one whenever it likes
    /// (`Pool::enter`), and gives it back when it drops it. The call returns when all are done, and the store has seen all
    /// that they did. The crew may be larger than the pool. A pool has at least one client, and at most 65,534; their
    /// sessions count from `first`, and continue at 0 after 255.
    ///
    /// `Err` says that memory ran out, and that nobody has worked. None of the crew may wait for another one, since they work
    /// one after another if no thread can be started.
    pub fn pool<S: Service<R> + Send, R: Threads + Wait + Sync>(
        &mut self,
        rt: &R,
        first: u8,
        clients: u16,
        crew: &mut [S],
    ) -> Result<(), Memory>
        ensures store { Keeps self.old self.new }
        ensures hosted { HasHosted self.old self.new }
        ensures served { OnOk result (AllServed S.does self.old.pass crew.old crew.new) }
        ensures refused { OnErr result ((crew.new ≡ crew.old) × (self.new ≡ self.old)) }
    {
        self.pool_of::<S, R, Brand>(rt, first, clients.clamp(1, MOST_IN_POOL), crew)
    }

    // The same, for the lender that this store is.
    fn pool_of<S: Service<R> + Send, R: Threads + Wait + Sync, L: Lender + Send + Sync>(
        &mut self,
        rt: &R,
        first: u8,
        clients: u16,
        crew: &mut [S],
    ) -> Result<(), Memory>
        requires few { clients < 65535 }
        requires lender { self.old.pass ≡ L.store }
        ensures hosted { HasHosted self.old self.new }
        ensures served { OnOk result (AllServed S.does L.store crew.old crew.new) }
        ensures refused { OnErr result ((crew.new ≡ crew.old) × (self.new ≡ self.old)) }
    {
        let pass = self.store.split_parts(&mut self.pass, PARTS);
        let mut boss = Client::new(&self.store, self.alloc, pass, self.session);
        let done = boss.host::<S, R, L>(rt, first, clients, crew);
        self.store.join_pass(&mut self.pass, boss.into_pass());
        done
    }
}
