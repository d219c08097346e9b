//! Clients that threads share: each has one for a while, and no client gets lost.
ghost use Rattle.std.specs.Prelude.{◌≡◌, ◌<◌, IfSome, IfNone};
ghost use mathlib.Core.List.{IsPrefix};
ghost use Rattle.store_client.specs.Caller.{without_parts};
ghost use Rattle.store_client.specs.Pools.{HasHome};

use crate::client::Client;
use crate::crowd::session_behind;
use crate::guest::Guest;
use disk_trait::LogDisk;
use index_layer::Index;
use sessions::Start;
use std::marker::{Brand, Model, PhantomData};
use std::sync::atomic::{AtomicU64, Ordering};
use std::sync::{Mutex, Wait};

/// The store that lends the clients of a pool, as it was when the pool was opened. Contracts alone use it: it ties the
/// clients to their store while they are in a lock. Code that opens a pool takes it as a parameter, and its caller passes
/// `Brand`.
pub trait Lender {
    ghost use Rattle.book_lock.specs.Pass.{Known};

    ghost store: { Known };
}

impl Lender for Brand {
    ghost use Rattle.std.specs.Prelude.{[], false};
    ghost use Rattle.book_lock.specs.Rule.{no_origin};

    ghost store = { record {
      lock = record { words = 0; slots = 0; views_name = 0; atom = 0; block = 0; offset = 0; slot_names = [] };
      seen = [];
      own = [];
      origin = no_origin;
      parts = 0;
      holds = false;
    } };
}

/// The place of one client of a pool. Contracts see it as the client.
pub(crate) struct Desk<'s, I: Index, D: LogDisk, O: Start, L: Lender> {
    pub(crate) client: Client<'s, I, D, O>,
    pub(crate) lender: PhantomData<L>,
}

impl<'s, I: Index, D: LogDisk, O: Start, L: Lender> Model for Desk<'s, I, D, O, L> {
    ghost use Rattle.store_client.specs.Caller.{Caller};
    ghost use Rattle.store_client.specs.Pools.{IsGuest};

    ghost Value = { Caller };

    ghost view = { λ d. d.client };

    ghost invariant = { λ d. IsGuest L.store d.client };
}

/// Clients of a store that threads share. Any thread may take one by `enter`, at any time, and gives it back when it drops
/// it. Contracts see a pool as the number of its clients. A pool can't be dropped, since the clients have parts of the
/// store: `close` takes all of them home.
pub struct Pool<'s, I: Index, D: LogDisk, O: Start, L: Lender> {
    desks: Vec<Mutex<Desk<'s, I, D, O, L>>>,
    // How often a guest has left.
    left: AtomicU64,
}

impl<'s, I: Index, D: LogDisk, O: Start, L: Lender> Model for Pool<'s, I, D, O, L> {
    ghost use Rattle.std.specs.Prelude.{ℕ, vec_len};

    ghost Value = { ℕ };

    ghost view = { λ p. vec_len p.desks };
}

impl<'s, I: Index, D: LogDisk, O: Start, L: Lender> Pool<'s, I, D, O, L> {
    /// Opens a pool of so many clients, which have one part each of this one's. Their sessions count from `first`, and
    /// continue at 0 after 255. `None` says that memory ran out.
    pub fn open(
        boss: &mut Client<'s, I, D, O>,
        first: u8,
        clients: u16,
    ) -> Option<Pool<'s, I, D, O, L>>
        requires parts { clients < boss.old.pass.parts }
        requires lender { (boss.old.pass.lock ≡ L.store.lock) × (boss.old.pass.origin ≡ L.store.origin)
            × IsPrefix L.store.seen boss.old.pass.seen }
        ensures opened { IfSome result (λ pool. (pool ≡ clients) × (boss.new ≡ without_parts clients boss.old)) }
        ensures refused { IfNone result (boss.new ≡ boss.old) }
    {
        let mut desks = Vec::with_capacity(boss.alloc, clients as usize).ok()?;
        for number in 0..clients {
            desks.push_reserved(Mutex::new(Desk {
                client: boss.another(session_behind(first, number as usize)),
                lender: PhantomData,
            }));
        }
        Some(Pool {
            desks,
            left: AtomicU64::new(0),
        })
    }

    /// Takes all clients home. This client has seen what each of them has.
    pub fn close(self, boss: &mut Client<'s, I, D, O>)
        requires { boss.old.pass.lock ≡ L.store.lock }
        ensures { HasHome self.entry boss.old boss.new }
    {
        let Pool { mut desks, left: _ } = self;
        while let Some(desk) = desks.pop() {
            let Desk { client, lender: _ } = desk.into_inner();
            boss.join(client);
        }
        desks.destroy_empty();
    }

    /// Takes a client, if one is free.
    pub fn try_enter(&self) -> Option<Guest<'_, 's, I, D, O, L>> {
        for desk in &self.desks {
            if let Some(desk) = desk.try_lock() {
                return Some(Guest {
                    desk,
                    left: &self.left,
                });
            }
        }
        None
    }

    /// Takes a client, and waits until one is free. A thread that keeps its client and enters again may wait for ever.
    pub fn enter<R: Wait>(&self, rt: &R) -> Guest<'_, 's, I, D, O, L> {
        for _ in rt.forever() {
            let left = self.left.load(Ordering::SeqCst);
            if let Some(guest) = self.try_enter() {
                return guest;
            }
            // A guest that left after the count was read ends the sleep at once.
            self.left.park(rt, (left % (1 << 32)) as u32);
        }
        unreachable!()
    }
}
