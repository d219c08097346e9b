//! A caller's pass.
ghost use Rattle.std.specs.Prelude.{◌≡◌};

use crate::manner::Manner;
use crate::view::View;
use atomic_table::Seat;
use std::marker::Model;

/// The right of its owner to call the lock. It keeps the part of the history that was seen, and knows which of those
/// entries are its own. A pass must be joined to another one, or closed with the lock. It can't be dropped.
pub struct Pass<V> {
    pub(crate) seat: Seat<Option<V>, View>,
    /// How its owner waits.
    pub(crate) manner: Manner,
}

impl<V> Model for Pass<V> {
    ghost use Rattle.std.specs.Prelude.{◌≡◌, ◌<◌, []};
    ghost use Rattle.book_lock.specs.Pass.{Known, Carries};

    ghost Value = { Known };

    ghost view = { λ p. record { lock = p.seat.table_id; seen = p.seat.me.0.seen; own = p.seat.me.0.own; origin = p.seat.me.0.origin; parts = p.seat.me.0.parts; holds = p.seat.me.0.holds } };

    ghost invariant = { λ p. (0 < p.seat.me.0.parts) × (p.seat.me.0.told ≡ []) × Carries p.seat.me.0.holds p.seat.me.1 };
}

impl<V> Pass<V> {
    /// Says whether the owner's next call only reads the value. In a batch, a caller that is to change the value waits
    /// longer before it tries again, because each processor that changes the value has to fetch it first.
    pub fn will_read(&mut self, is_reader: bool)
        ensures { self.new ≡ self.old }
    {
        self.manner.is_reader = is_reader;
    }

    /// Says whether the owner is one of a batch. If the lock is taken, such a caller naps for some milliseconds at a
    /// time, so that the value stays with the processor that has it. Other callers are prompt: they sleep until they
    /// are woken, and are let in. A new pass is prompt.
    pub fn in_batch(&mut self, is_batch: bool)
        ensures { self.new ≡ self.old }
    {
        self.manner.is_batch = is_batch;
    }
}
