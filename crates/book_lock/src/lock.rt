//! The lock: how it is created and closed.
ghost use Rattle.std.specs.Prelude.{◌≡◌, ℕ, false, [], ◌∷◌, length, IfOk, IfErr, MatchResult, Some};
ghost use Rattle.book_lock.specs.Own.{times, once_below};
ghost use Rattle.book_lock.specs.Rule.{all_parts};

use crate::held::Held;
use crate::kinds::Law;
use crate::manner::Manner;
use crate::pass::Pass;
use crate::view::View;
use atomic_table::{Refused, Table};
use std::alloc::{AllocFailed, Global};
use std::marker::Model;
use std::snapshot::Snapshot;

mod holding;
mod shares;
mod waiters;
mod waiting;

use waiters::Waiters;

/// Guards one value. Contracts see which lock it is, so that they can say that a pass belongs to it.
///
/// Word 0 of its table never changes, word 1 is 1 while a caller holds the lock, and word 2 counts the entries of the
/// history. The one slot has the value.
pub struct BookLock<V: Held> {
    table: Table<Option<V>, View, Snapshot<V>, Law, Global>,
    /// The callers that wait for the lock.
    waiters: Waiters,
    /// Whether a step may take long.
    is_slow: bool,
}

impl<V: Held> Model for BookLock<V> {
    ghost use Rattle.std.specs.Prelude.{◌≡◌};
    ghost use Rattle.atomic_table.specs.Seated.{TableId, table_id_coded};

    ghost Value = { TableId };

    ghost coded = { table_id_coded };

    ghost view = { λ b. b.table.shared.table_id };

    ghost invariant = { λ b. (b.table.shared.table_id.words ≡ 3) × (b.table.shared.table_id.slots ≡ 1) };
}

// The one slot, with the value.
fn shelf<V>(alloc: Global, value: V) -> Result<Vec<Option<V>>, V>
    ensures { MatchResult result (λ v. v.items ≡ Some value ∷ []) (λ v. v ≡ value) }
{
    let mut slots = Vec::new(alloc);
    match slots.push(Some(value)) {
        Ok(()) => Ok(slots),
        Err(failed) => {
            slots.destroy_empty();
            let AllocFailed { value } = failed;
            match value {
                Some(value) => Err(value),
                None => unreachable!(),
            }
        }
    }
}

// The value of the one slot.
fn unshelf<V>(mut slots: Vec<Option<V>>) -> V
    requires { (v : V) × (slots.items ≡ Some v ∷ []) }
    ensures { slots.items ≡ Some result ∷ [] }
{
    let Some(Some(value)) = slots.pop() else {
        unreachable!()
    };
    slots.destroy_empty();
    value
}

impl<V: Held> BookLock<V> {
    /// A lock around a value that has no entries yet, and the pass that has all parts of it. If memory runs out, the
    /// call returns the value.
    pub fn new(alloc: Global, value: V) -> Result<(BookLock<V>, Pass<V>), V>
        requires { V.entries value ≡ [] }
        ensures lock { IfOk result (λ r. r.1 ≡ record {
          lock = r.0;
          seen = [];
          own = [];
          origin = V.origin value;
          parts = all_parts;
          holds = false;
        }) }
        ensures back { IfErr result (λ v. v ≡ value) }
    {
        let is_slow = value.is_slow();
        let about = Snapshot::of(&value);
        let slots = shelf(alloc, value)?;
        match Table::new(alloc, &[0, 0, 0], slots, &about) {
            Ok((table, seat)) => Ok((
                BookLock {
                    table,
                    waiters: Waiters::new(),
                    is_slow,
                },
                Pass {
                    seat,
                    manner: Manner::new(),
                },
            )),
            Err(Refused { slots }) => Err(unshelf(slots)),
        }
    }

    /// Ends the lock, and returns the value. It requires a pass with all parts, so each other pass must have been
    /// joined to it.
    pub fn close(self, pass: Pass<V>) -> V
        requires lock { pass.lock ≡ self }
        requires off { pass.holds ≡ false }
        requires parts { pass.parts ≡ all_parts }
        ensures value { (V.entries result ≡ pass.seen) × (V.origin result ≡ pass.origin) }
        ensures own { (p : ℕ) → times p pass.own ≡ once_below p (length pass.seen) }
    {
        let BookLock {
            table,
            waiters: _,
            is_slow: _,
        } = self;
        let Pass { seat, manner: _ } = pass;
        let mut closed = table.close_with(seat);
        let slot = closed.take(0);
        closed.free();
        match slot {
            Some(value) => value,
            None => unreachable!(),
        }
    }
}
