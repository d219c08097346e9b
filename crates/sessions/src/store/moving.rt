//! The lock, held by a caller while a fresh log replaces the log.
ghost use Rattle.std.specs.Prelude.{◌≡◌, true, false};
ghost use Rattle.sessions.specs.Runs.{HasLooked};
ghost use Rattle.sessions.specs.Shared.{StartsAs, moves_of, origin_of};
ghost use Rattle.sessions.specs.Steps.{MayGive, WasTaken, has_given};

use super::Store;
use crate::shared::{SharedBook, Turn};
use crate::start::Start;
use book_lock::Pass;
use disk_trait::LogDisk;
use index_layer::Index;
use std::sync::Wait;

impl<I: Index, D: LogDisk, O: Start> Store<I, D, O> {
    /// Takes the lock, and returns the book, for a call that needs both until it ends. Give the book back by `release`:
    /// until then every other call of the store waits.
    pub fn hold<R: Wait>(&self, rt: &R, pass: &mut Pass<SharedBook<I, D, O>>) -> SharedBook<I, D, O>
        requires lock { pass.old.lock ≡ self.now }
        requires off { pass.old.holds ≡ false }
        ensures taken { WasTaken D.drive result pass.old pass.new }
        ensures start { StartsAs D.drive O.unlogged O.is result.log }
    {
        let book = self.take(rt, pass);
        book.started();
        book
    }

    /// Gives back a book that `hold` returned, and the lock. `grown` says whether the book has one more entry since then.
    pub fn release(
        &self,
        pass: &mut Pass<SharedBook<I, D, O>>,
        book: SharedBook<I, D, O>,
        grown: bool,
    )
        requires lock { pass.old.lock ≡ self.now }
        requires on { pass.old.holds ≡ true }
        requires origin { origin_of D.drive book ≡ pass.old.origin }
        requires entries { MayGive pass.old grown book.entries }
        ensures { pass.new ≡ has_given pass.old grown book.entries }
    {
        self.put_back(pass, book, grown);
    }

    /// Whether the store began with the drive of a second file. The call needs no lock.
    pub fn keeps_spare(&self) -> bool {
        self.keeps_spare
    }

    /// Keeps the drive of a second file beside the book. A drive that was kept before is dropped.
    pub(crate) fn keep_spare<R: Wait>(&self, rt: &R, pass: &mut Pass<SharedBook<I, D, O>>, spare: D)
        requires lock { pass.old.lock ≡ self.now }
        requires off { pass.old.holds ≡ false }
        requires moves { moves_of pass.old.origin ≡ true }
        ensures { HasLooked pass.old pass.new }
    {
        let mut book = self.take(rt, pass);
        let _before = book.put_spare(spare);
        self.put_back(pass, book, false);
    }

    /// Sets when the store goes over to its second file by itself.
    pub fn set_turn<R: Wait>(&self, rt: &R, pass: &mut Pass<SharedBook<I, D, O>>, turn: Turn)
        requires lock { pass.old.lock ≡ self.now }
        requires off { pass.old.holds ≡ false }
        ensures { HasLooked pass.old pass.new }
    {
        let mut book = self.take(rt, pass);
        book.set_turn(turn);
        self.put_back(pass, book, false);
    }
}
