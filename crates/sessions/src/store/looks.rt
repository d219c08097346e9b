//! The room that is left in a store, whether it is closed, the leaf to split next, and a view of the objects.
ghost use Rattle.std.specs.Prelude.{◌≡◌, false, IfOk};
ghost use Rattle.plain_list.specs.History.{failed_cell};
ghost use Rattle.sessions.specs.Calls.{next_full};
ghost use Rattle.sessions.specs.Rooms.{IsRoom};
ghost use Rattle.sessions.specs.Runs.{HasLooked};
ghost use Rattle.sessions.specs.Views.{IsView};

use super::Store;
use crate::shared::SharedBook;
use crate::start::Start;
use book_lock::Pass;
use commit_book::{Room, Snapshot};
use disk_trait::LogDisk;
use index_layer::Index;
use std::sync::Wait;
use zorder::{Memory, Name};

impl<I: Index, D: LogDisk, O: Start> Store<I, D, O> {
    /// How many more entries and log records there is room for, after all that the pass has seen. If a fresh log may
    /// replace the log, a later call may return more records.
    pub fn room<R: Wait>(&self, rt: &R, pass: &mut Pass<SharedBook<I, D, O>>) -> Room
        requires lock { pass.old.lock ≡ self.now }
        requires off { pass.old.holds ≡ false }
        ensures looked { HasLooked pass.old pass.new }
        ensures room { IsRoom pass.new.origin pass.new.seen result }
    {
        let book = self.take(rt, pass);
        let room = book.room();
        self.put_back(pass, book, false);
        room
    }

    /// The record whose append failed, or `None` if none did, after all that the pass has seen. After a failure the store
    /// takes no more calls.
    pub fn closed<R: Wait>(&self, rt: &R, pass: &mut Pass<SharedBook<I, D, O>>) -> Option<u64>
        requires lock { pass.old.lock ≡ self.now }
        requires off { pass.old.holds ≡ false }
        ensures looked { HasLooked pass.old pass.new }
        ensures closed { result ≡ failed_cell pass.new.seen }
    {
        let book = self.take(rt, pass);
        let closed = book.closed();
        self.put_back(pass, book, false);
        closed
    }

    /// Returns the leaf to split next after all that the pass has seen, or `None` if no leaf is due.
    pub fn full<R: Wait>(&self, rt: &R, pass: &mut Pass<SharedBook<I, D, O>>) -> Option<Name>
        requires lock { pass.old.lock ≡ self.now }
        requires off { pass.old.holds ≡ false }
        ensures looked { HasLooked pass.old pass.new }
        ensures full { result ≡ next_full I.WIDTH pass.new }
    {
        let book = self.take(rt, pass);
        let full = book.full();
        self.put_back(pass, book, false);
        full
    }

    // Returns the index and the place of the last call, and wakes another lane.
    fn look_at<R: Wait>(
        &self,
        rt: &R,
        pass: &mut Pass<SharedBook<I, D, O>>,
    ) -> Result<Snapshot<I>, Memory>
        requires lock { pass.old.lock ≡ self.now }
        requires off { pass.old.holds ≡ false }
        ensures looked { HasLooked pass.old pass.new }
        ensures view { IfOk result (λ s. IsView I.WIDTH (I.leaves s.index) s.place pass.new) }
    {
        let book = self.take(rt, pass);
        let view = book.view();
        self.put_back(pass, book, false);
        self.lock.rouse();
        view
    }

    /// Returns the index after all that the pass has seen, and the place of the last call there. No later call changes
    /// that index. The call adds no entry, and other callers wait only until two pointers are copied.
    pub fn view<R: Wait>(
        &self,
        rt: &R,
        pass: &mut Pass<SharedBook<I, D, O>>,
    ) -> Result<Snapshot<I>, Memory>
        requires lock { pass.old.lock ≡ self.now }
        requires off { pass.old.holds ≡ false }
        ensures looked { HasLooked pass.old pass.new }
        ensures view { IfOk result (λ s. IsView I.WIDTH (I.leaves s.index) s.place pass.new) }
    {
        pass.will_read(true);
        self.look_at(rt, pass)
    }
}
