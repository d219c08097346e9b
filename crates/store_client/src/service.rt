//! A crew that works at a store, whose clients it takes from a pool.
ghost use Rattle.std.specs.Prelude.{◌≡◌, ◌<◌, OnOk, OnErr};
ghost use mathlib.Core.List.{IsPrefix};
ghost use Rattle.store_client.specs.Pools.{AllServed, HasHosted};

use crate::client::Client;
use crate::pool::{Lender, Pool};
use disk_trait::LogDisk;
use index_layer::Index;
use sessions::Start;
use std::sync::Wait;
use std::thread::{self, Threads};
use zorder::Memory;

/// What one of a crew does, in a thread of its own: for instance, it takes requests from a queue, and makes the calls of
/// each by a client that it takes from the pool and gives back.
pub trait Service<R: Wait> {
    ghost use Rattle.std.specs.Prelude.{⊤};
    ghost use Rattle.book_lock.specs.Pass.{Known};

    /// What it makes of itself, at a store that was so when the pool was opened.
    ghost does: { Self → Known → Self → Type 0 } = { λ _ _ _. ⊤ };

    fn serve<I: Index, D: LogDisk, O: Start, L: Lender>(
        &mut self,
        rt: &R,
        pool: &Pool<'_, I, D, O, L>,
    )
        ensures { does self.old L.store self.new };
}

impl<'s, I: Index + Send, D: LogDisk + Send, O: Start + Send> Client<'s, I, D, O> {
    /// Opens a pool of so many clients, lets each of a crew work in its own thread, and takes all clients home when all are
    /// done. The crew may be larger than the pool, or smaller. `Err` says that nobody has worked. If no thread can be
    /// started, they work one after another, so none may wait for another.
    pub fn host<S: Service<R> + Send, R: Threads + Wait + Sync, L: Lender + Send + Sync>(
        &mut self,
        rt: &R,
        first: u8,
        clients: u16,
        crew: &mut [S],
    ) -> Result<(), Memory>
        requires parts { clients < self.old.pass.parts }
        requires lender { (self.old.pass.lock ≡ L.store.lock) × (self.old.pass.origin ≡ L.store.origin)
            × IsPrefix L.store.seen self.old.pass.seen }
        ensures hosted { HasHosted self.old self.new }
        ensures served { OnOk result (AllServed S.does L.store crew.old crew.new) }
        ensures refused { OnErr result ((crew.new ≡ crew.old) × (self.new ≡ self.old)) }
    {
        let Some(pool) = Pool::<I, D, O, L>::open(self, first, clients) else {
            return Err(Memory);
        };
        serve_all(rt, &pool, crew);
        pool.close(self);
        Ok(())
    }
}

// Lets each of a crew work in its own thread.
fn serve_all<
    I: Index + Send,
    D: LogDisk + Send,
    O: Start + Send,
    S: Service<R> + Send,
    R: Threads + Wait + Sync,
    L: Lender + Send + Sync,
>(rt: &R, pool: &Pool<'_, I, D, O, L>, crew: &mut [S])
    ensures { AllServed S.does L.store crew.old crew.new }
{
    let threads = crew.len().max(1);
    thread::for_each_mut(
        rt,
        crew,
        threads,
        &|_, one|
            ensures { S.does one.entry.now L.store one.exit.now }
        { one.serve(rt, pool) },
    );
}
