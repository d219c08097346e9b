//! Taking the lock, adding to the history, and giving the lock back.
ghost use Rattle.std.specs.Prelude.{◌≡◌, ◌+◌, ◌^◌, ◌<◌, true, false, List, [], ◌∷◌, ◌++◌, length, take};
ghost use mathlib.Core.List.{IsPrefix};
ghost use Rattle.plain_list.specs.declared.entries.Entry.{Entry};
ghost use Rattle.book_lock.specs.Own.{Rises, IsBelow};
ghost use Rattle.book_lock.specs.Ends.{OwnsEnds, MayNote};
ghost use Rattle.book_lock.specs.Rule.{all_parts};

use super::BookLock;
use crate::held::Held;
use crate::kinds::{Compare, Note, Noting, Release, Take};
use crate::pass::Pass;
use std::marker::Brand;
use std::sync::Wait;

impl<V: Held> BookLock<V> {
    /// Waits until the lock is free, takes it and returns the value. No other caller can add to the history until the
    /// lock is given back.
    pub fn take<R: Wait>(&self, rt: &R, pass: &mut Pass<V>) -> V
        requires lock { pass.old.lock ≡ self.now }
        requires off { pass.old.holds ≡ false }
        ensures value { (V.entries result ≡ pass.new.seen) × (V.origin result ≡ pass.old.origin) }
        ensures later { IsPrefix pass.old.seen pass.new.seen }
        ensures pass { pass.new ≡ record pass.old { seen = pass.new.seen; holds = true } }
        ensures ends { OwnsEnds pass.new.seen pass.new.own }
        ensures rises { Rises pass.new.own × IsBelow (length pass.new.seen) pass.new.own }
        ensures alone { pass.old.parts ≡ all_parts → pass.new.seen ≡ pass.old.seen }
    {
        let manner = self.give_way(pass.manner);
        let seat = &mut pass.seat;
        let shared = &self.table.shared;
        let mut misses = 0;
        for _ in rt.forever() {
            if shared.compare_exchange::<Take>(seat, 1, 0, 1) == 0 {
                let slot = shared.exchange(seat, 0, None);
                shared.load::<Compare>(seat, 2);
                pass.manner = self.arrive(manner, misses);
                match slot {
                    Some(value) => return value,
                    None => unreachable!(),
                }
            }
            misses = self.pause(rt, misses, manner);
        }
        unreachable!()
    }

    // `value` is for the choice of the entry alone.
    fn add<J: Noting>(&self, pass: &mut Pass<V>, value: &V)
        requires lock { pass.old.lock ≡ self.now }
        requires on { pass.old.holds ≡ true }
        requires room { length pass.old.seen + 1 < 2 ^ 64 }
        requires ends { MayNote pass.old.seen pass.old.own J.entry }
        ensures { pass.new ≡ record pass.old { seen = pass.old.seen ++ J.entry ∷ []; own = pass.old.own ++ length pass.old.seen ∷ [] } }
    {
        let _ = value;
        self.table.shared.fetch_add::<Note<J>>(&mut pass.seat, 2, 1);
    }

    /// Makes the value's newest entry the next one of the history. To end a split, a pass must own the begin of that
    /// split.
    pub fn note(&self, pass: &mut Pass<V>, value: &V)
        requires lock { pass.old.lock ≡ self.now }
        requires on { pass.old.holds ≡ true }
        requires origin { V.origin value.now ≡ pass.old.origin }
        requires entry { (e : Entry) × (V.entries value.now ≡ pass.old.seen ++ e ∷ []) × MayNote pass.old.seen pass.old.own e }
        ensures { pass.new ≡ record pass.old { seen = V.entries value.now; own = pass.old.own ++ length pass.old.seen ∷ [] } }
    {
        self.note_next(pass, value);
    }

    /// Makes the value's first entry that the pass has not seen the next one of the history. A step that adds several
    /// entries is noted by one call for each of them, while the pass holds the lock.
    pub fn note_next(&self, pass: &mut Pass<V>, value: &V)
        requires lock { pass.old.lock ≡ self.now }
        requires on { pass.old.holds ≡ true }
        requires origin { V.origin value.now ≡ pass.old.origin }
        requires entry { (e : Entry) × (rest : List Entry) × (V.entries value.now ≡ pass.old.seen ++ e ∷ rest)
            × MayNote pass.old.seen pass.old.own e }
        ensures { pass.new ≡ record pass.old {
          seen = take (length pass.old.seen + 1) (V.entries value.now);
          own = pass.old.own ++ length pass.old.seen ∷ [];
        } }
    {
        // The number of entries fits a word, so the count of the history can't wrap to 0.
        let _events = value.events();
        self.add::<Brand>(pass, value);
    }

    /// Gives the lock and the value back, and wakes a caller that sleeps.
    pub fn put_back(&self, pass: &mut Pass<V>, value: V)
        requires lock { pass.old.lock ≡ self.now }
        requires on { pass.old.holds ≡ true }
        requires value { (V.entries value ≡ pass.old.seen) × (V.origin value ≡ pass.old.origin) }
        ensures { pass.new ≡ record pass.old { holds = false } }
    {
        let empty = self.table.shared.exchange(&mut pass.seat, 0, Some(value));
        let None = empty else { unreachable!() };
        self.table.shared.store::<Release>(&mut pass.seat, 1, 0);
        // After the store: a waiting caller that isn't counted yet finds the lock free.
        self.wake();
    }
}
