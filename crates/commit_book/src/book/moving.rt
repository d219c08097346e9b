//! A fresh log that replaces a book's log while the history continues.
ghost use Rattle.std.specs.Prelude.{◌≡◌, true, [], Some, None, IfOk, IfErr};
ghost use Rattle.std.specs.Option.{option_map};
ghost use Rattle.kept_log.specs.Journal.{log_in, moves_in, moves_from};
ghost use Rattle.commit_book.specs.IsBook.{AreBooks, AreMovedBooks};
ghost use Rattle.commit_book.specs.Moves.{IsListMemory, StopsBook, may_move_refusal, move_refusal, with_fresh_log};
ghost use Rattle.commit_book.specs.OpenedLog.{IsOpenedLog};
ghost use Rattle.commit_book.specs.Refusals.{IsRefusedBy, IsNoFault, call_refusal};
ghost use Rattle.commit_book.specs.Rotation.{HasContent};

use crate::book::Book;
use crate::faults::{BookFault, MoveFault};
use disk_trait::LogDisk;
use index_layer::Index;
use plain_list::{Entry, Lost, Op};
use recovery::Opened;
use split_log::SplitLog;

/// What was opened for a book, and why it did not replace the book's log.
#[derive(Drop)]
pub struct NotMoved<D: LogDisk> {
    pub fault: MoveFault,
    pub opened: Opened<D>,
}

impl<I: Index, D: LogDisk> Book<I, D> {
    /// Lets fresh logs replace the log from now on, by `move_log`. It takes no memory. A book without a log stays the
    /// same.
    pub fn may_move(self) -> Book<I, D>
        requires { self.entries ≡ [] }
        ensures { result ≡ record self { log = option_map moves_from self.log } }
    {
        let Book {
            table,
            splits,
            history,
            journal,
            opening,
        } = self;
        Book {
            table,
            splits,
            history,
            journal: journal.may_move(),
            opening,
        }
    }

    /// Replaces the log by a fresh one, which must have the book's objects and leaves. The history, the objects and the
    /// leaves stay, so places and numbers of splits continue. From then on each crash leaves the records of the fresh log,
    /// and then those of later entries. No memory is taken, and the device is not called. Records wait if they did before.
    /// Those that wait now are not written: the fresh log has what they changed. `Ok` returns the log until now. `Err`
    /// returns what was opened, and the book is unchanged.
    pub fn move_log(&mut self, opened: Opened<D>) -> Result<Option<SplitLog<D>>, NotMoved<D>>
        requires moves { moves_in self.old.log ≡ true }
        requires opened { IsOpenedLog D.drive I.WIDTH opened.seen opened.start.value opened.log }
        requires content { HasContent I.WIDTH self.old opened.seen }
        ensures ok { IfOk result (λ log. (move_refusal I.WIDTH self.old opened.seen.begun ≡ None) × (log ≡ log_in self.old.log)) }
        ensures moved { IfOk result (λ _. self.new ≡ with_fresh_log I.WIDTH opened.seen opened.log opened.start.value self.old) }
        ensures refused { IfErr result (λ e. move_refusal I.WIDTH self.old opened.seen.begun ≡ Some e.fault) }
        ensures back { IfErr result (λ e. (self.new ≡ self.old) × (e.opened ≡ opened)) }
        ensures book { AreMovedBooks D.drive I.WIDTH self.old self.new }
    {
        self.keep();
        if let Some(fault) = self.move_refusal(opened.seen.begun) {
            return Err(NotMoved { fault, opened });
        }
        let skipped = self.splits.begun() - opened.seen.begun;
        let past = self.history.past();
        let log = self
            .journal
            .move_to(opened.log, opened.start, past, skipped);
        self.keep();
        Ok(log)
    }

    /// Whether a fresh log may replace the log now, if no more splits have begun in it: no append has failed, the history
    /// isn't full, and no split is open. So it tells before a fresh log is written.
    pub fn check_move(&self) -> Result<(), BookFault>
        ensures { IsRefusedBy IsNoFault (may_move_refusal I.WIDTH self.now) result }
    {
        self.keep();
        self.check_call()?;
        match self.splits.first() {
            Some(number) => Err(BookFault::Splitting { number }),
            None => Ok(()),
        }
    }

    /// Takes no more calls from now on, as after a failed append. No device call is made. A store needs it if another log
    /// may already have all that its own log has: then nothing may be appended to either. The history ends with the failed
    /// append of a find, which has no record. Only a book that keeps the list of its entries may lack memory for it.
    pub fn stop(&mut self) -> Result<(), BookFault>
        requires moves { moves_in self.old.log ≡ true }
        ensures ok { IfOk result (λ _. StopsBook self.old self.new) }
        ensures refused { IsRefusedBy (IsListMemory self.old.kept) (call_refusal self.old.kept self.old.entries) result }
        ensures err { IfErr result (λ _. self.new ≡ self.old) }
        ensures book { AreBooks D.drive I.WIDTH self.old self.new }
    {
        self.keep();
        self.check_call()?;
        self.history.reserve(self.splits.len() + 1)?;
        if let Some(cell) = self.journal.stop() {
            let lost = Lost::Call {
                session: 0,
                row: 0,
                op: Op::Find { id: 0 },
            };
            self.history.push(Entry::Fail { cell, lost });
        }
        self.keep();
        Ok(())
    }

    // Why a fresh log in which this many splits have begun may not replace the log.
    fn move_refusal(&self, begun: u64) -> Option<MoveFault>
        ensures { result ≡ move_refusal I.WIDTH self.now begun }
    {
        if let Some(cell) = self.closed() {
            return Some(MoveFault::Closed { cell });
        }
        if let Some(number) = self.splits.first() {
            return Some(MoveFault::Splitting { number });
        }
        if begun > self.splits.begun() {
            return Some(MoveFault::Ahead { begun });
        }
        None
    }
}
