//! Splitting and joining passes, and passing on what one has seen.
ghost use Rattle.std.specs.Prelude.{◌≡◌, ℕ, ◌+◌, ◌-◌, ◌<◌, ◌≤◌, false, []};
ghost use mathlib.Core.List.{IsPrefix};
ghost use Rattle.book_lock.specs.Own.{merge, times};
ghost use Rattle.book_lock.specs.Ends.{longer};
ghost use Rattle.book_lock.specs.Rule.{both, untold};

use super::BookLock;
use crate::held::Held;
use crate::kinds::{Both, Compare, Copy, Cut, Sharing};
use crate::manner::Manner;
use crate::pass::Pass;
use crate::view::View;
use atomic_table::Seat;
use std::marker::Brand;

impl<V: Held> BookLock<V> {
    // Joins another seat to this one, and compares what both have seen.
    fn absorb(&self, seat: &mut Seat<Option<V>, View>, other: Seat<Option<V>, View>)
        requires lock { (seat.old.table_id ≡ self.now) × (other.table_id ≡ self.now) }
        requires off { (seat.old.me.1 ≡ []) × (other.me.1 ≡ []) × (seat.old.me.0.holds ≡ false) × (other.me.0.holds ≡ false) }
        requires parts { 0 < seat.old.me.0.parts }
        ensures seat { (seat.new.table_id ≡ seat.old.table_id) × (seat.new.me ≡ (untold (both seat.old.me.0 other.me.0), [])) }
        ensures begins { IsPrefix seat.old.me.0.seen seat.new.me.0.seen × IsPrefix other.me.0.seen seat.new.me.0.seen }
    {
        self.table.shared.join_seat::<Both>(seat, other);
        self.table.shared.load::<Compare>(seat, 2);
    }

    // `parts` is for the choice of the kind alone.
    fn cut<J: Sharing>(&self, pass: &mut Pass<V>, parts: u64) -> Pass<V>
        requires lock { pass.old.lock ≡ self.now }
        requires off { pass.old.holds ≡ false }
        requires parts { (1 ≤ J.parts) × (J.parts < pass.old.parts) }
        ensures old { pass.new ≡ record pass.old { parts = pass.old.parts - J.parts } }
        ensures new { result ≡ record pass.old { own = []; parts = J.parts } }
    {
        let _ = parts;
        Pass {
            seat: self.table.shared.split_seat::<Cut<J>>(&mut pass.seat),
            manner: Manner::new(),
        }
    }

    /// A pass for another caller, with `parts` of the parts. It has seen the same. A pass with more than one part may
    /// split off further ones.
    pub fn split_parts(&self, pass: &mut Pass<V>, parts: u64) -> Pass<V>
        requires lock { pass.old.lock ≡ self.now }
        requires off { pass.old.holds ≡ false }
        requires parts { (1 ≤ parts) × (parts < pass.old.parts) }
        ensures old { pass.new ≡ record pass.old { parts = pass.old.parts - parts } }
        ensures new { result ≡ record pass.old { own = []; parts = parts } }
    {
        self.cut::<Brand>(pass, parts)
    }

    /// A pass for another caller, with one part. It has seen the same.
    pub fn split_pass(&self, pass: &mut Pass<V>) -> Pass<V>
        requires lock { pass.old.lock ≡ self.now }
        requires off { pass.old.holds ≡ false }
        requires parts { 2 ≤ pass.old.parts }
        ensures old { pass.new ≡ record pass.old { parts = pass.old.parts - 1 } }
        ensures new { result ≡ record pass.old { own = []; parts = 1 } }
    {
        self.split_parts(pass, 1)
    }

    /// Joins another pass to this one, with its positions and its parts. Both have seen a prefix of one history, so the
    /// longer prefix begins with the shorter one.
    pub fn join_pass(&self, into: &mut Pass<V>, other: Pass<V>)
        requires lock { (into.old.lock ≡ self.now) × (other.lock ≡ self.now) }
        requires off { (into.old.holds ≡ false) × (other.holds ≡ false) }
        ensures joined { into.new ≡ record into.old {
          seen = longer into.old.seen other.seen;
          own = merge other.own into.old.own;
          parts = into.old.parts + other.parts;
        } }
        ensures begins { IsPrefix into.old.seen into.new.seen × IsPrefix other.seen into.new.seen }
        ensures counts { (p : ℕ) → times p into.new.own ≡ times p into.old.own + times p other.own }
    {
        let Pass { seat, manner: _ } = other;
        self.absorb(&mut into.seat, seat);
    }

    /// Lets `second` know what `first` has seen.
    pub fn meet(&self, first: &mut Pass<V>, second: &mut Pass<V>)
        requires lock { (first.old.lock ≡ self.now) × (second.old.lock ≡ self.now) }
        requires off { (first.old.holds ≡ false) × (second.old.holds ≡ false) }
        ensures same { first.new ≡ first.old }
        ensures told { second.new ≡ record second.old { seen = longer second.old.seen first.old.seen } }
        ensures begins { IsPrefix second.old.seen second.new.seen × IsPrefix first.old.seen second.new.seen }
    {
        let note = self.table.shared.split_seat::<Copy>(&mut first.seat);
        self.absorb(&mut second.seat, note);
    }
}
