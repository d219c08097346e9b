//! The book: an index, a map by id, the history of a run and its log, kept consistent with each other.
ghost use Rattle.std.specs.Prelude.{◌≡◌, ◌^◌, ◌<◌, true, false, [], Some, None, is_some, length, IfOk, IfErr};
ghost use Rattle.index_layer.specs.Leaves.{names_of};
ghost use Rattle.plain_list.specs.Size.{full_leaf};
ghost use Rattle.plain_list.specs.History.{call_count};
ghost use Rattle.plain_list.specs.State.{empty_state, state_after};
ghost use Rattle.plain_list.specs.Answer.{is_change};
ghost use Rattle.kept_log.specs.Kept.{found_state};
ghost use Rattle.kept_log.specs.Journal.{failed_cell, cells_in, disk_in};
ghost use Rattle.plain_list.specs.declared.entries.Lost.{Lost};
ghost use Rattle.plain_list.specs.declared.entries.Entry.{Entry};
ghost use Rattle.commit_book.specs.Answers.{IsUpdate, IsQuery, Notes, Replies, is_still_since};
ghost use Rattle.commit_book.specs.BookView.{first_log, list_in, StandsAfter};
ghost use Rattle.commit_book.specs.Crash.{LeavesCells};
ghost use Rattle.commit_book.specs.Events.{with_entry};
ghost use Rattle.commit_book.specs.IsBook.{IsBook, AreBooks};
ghost use Rattle.commit_book.specs.OpenedLog.{IsOpenedLog};
ghost use Rattle.commit_book.specs.Refusals.{IsRefusedBy, IsMemory, IsMemoryOrDisk, IsNoFault, LeavesRefused, call_refusal, update_refusal};
ghost use Rattle.commit_book.specs.Rotation.{book_on};

mod batches;
mod moving;
mod room;
mod rotation;
mod splits;
mod syncing;

use crate::faults::BookFault;
use crate::history::History;
pub use crate::history::{MOST_EVENTS, MOST_EVENTS_UNLISTED};
use crate::open_splits::OpenSplits;
use crate::opening::Opening;
use crate::steps::{Step, fault_of};
pub use batches::BatchDone;
use disk_trait::LogDisk;
use index_layer::Index;
use kept_log::Journal;
pub use moving::NotMoved;
use plain_list::{Answer, Entries, Entry, Lost, Op};
use point_table::PointTable;
use recovery::Opened;
pub use room::Room;
pub use rotation::{Anew, Content, Replaced};
pub use splits::{MOST_CELLS_TO_BEGIN, MOST_EVENTS_TO_BEGIN, MOST_EVENTS_TO_BEGIN_UNLISTED};
use std::alloc::Global;
use std::marker::Model;
use zorder::{Memory, Name};

/// What a book returns for a change or a find.
#[derive(Drop)]
pub struct Done {
    /// The number of the call among the calls of this run, from 1.
    pub place: u64,
    /// The answer of the plain list after the calls before this one.
    pub answer: Answer,
    /// The leaf to split next, or `None` if no leaf needs a split.
    pub full: Option<Name>,
}

/// The index as it was at a call.
#[derive(Drop)]
pub struct Snapshot<I: Index> {
    /// The index. Later steps of the book don't change it.
    pub index: I,
    /// The number of the call among the calls of this run, from 1.
    pub place: u64,
}

/// What a book is taken apart into.
#[derive(Drop)]
pub struct BookParts<I: Index, D: LogDisk> {
    /// The index at the end.
    pub index: I,
    /// The drive of the log, if there is a log.
    pub disk: Option<D>,
    /// The history of the run, if the book kept the list of its entries, and else no entry.
    pub entries: Entries,
}

/// The sequential core of the store. A change or a step of a split is made after its record is in the log, if there is
/// a log. After `at_sync` the record waits in memory until `sync`.
#[derive(Drop)]
pub struct Book<I: Index, D: LogDisk> {
    /// The objects after the whole history.
    table: PointTable<I>,
    /// The splits that have begun and not ended.
    splits: OpenSplits,
    /// The entries, in order.
    history: History,
    /// The log, if there is one.
    journal: Journal<D>,
    /// The world and the leaves at which the book began, for contracts alone.
    opening: Opening<I>,
}

impl<I: Index, D: LogDisk> Model for Book<I, D> {
    ghost use Rattle.commit_book.specs.BookView.{BookView};

    ghost Value = { BookView D };

    ghost use Rattle.commit_book.specs.BookInside.{IsInside, book_of};

    ghost view = { λ b. book_of b };

    ghost invariant = { λ b. IsInside D.drive I.WIDTH b.opening b };
}

impl<I: Index, D: LogDisk> Book<I, D> {
    /// Creates a book without objects, entries and log. It keeps the list of its entries. `bucket` is 4 to 4,096 rows.
    pub fn fresh(alloc: Global, bucket: u32) -> Result<Book<I, D>, Memory>
        ensures { IfOk result (λ b. (b.opening ≡ empty_state) × (b.entries ≡ []) × (b.bucket ≡ bucket) × (b.log ≡ None) × (b.kept ≡ true)) }
    {
        let table = PointTable::fresh(alloc, bucket)?;
        Ok(Book {
            opening: Opening::of(&table, 0),
            table,
            splits: OpenSplits::after(alloc, 0),
            history: History::empty(alloc, true),
            journal: Journal::none(),
        })
    }

    /// Creates a book on an opened log, with the objects and leaves found there, no open split and no entries. It keeps
    /// the list of its entries. `bucket` is 4 to 4,096 rows. If memory runs out, `Err` returns what was opened.
    pub fn opened(alloc: Global, opened: Opened<D>, bucket: u32) -> Result<Book<I, D>, Opened<D>>
        requires { IsOpenedLog D.drive I.WIDTH opened.seen opened.start.value opened.log }
        ensures opening { IfOk result (λ b. (b.opening ≡ found_state opened.seen) × (b.entries ≡ []) × (b.bucket ≡ bucket)
            × (b.kept ≡ true)) }
        ensures log { IfOk result (λ b. b.log ≡ Some (first_log opened.log opened.start.value)) }
        ensures back { IfErr result (λ back. back ≡ opened) }
    {
        let leaves = opened.seen.leaves.as_slice();
        let Ok(table) = PointTable::built(alloc, &opened.seen.world, leaves, bucket) else {
            return Err(opened);
        };
        Ok(on_log(alloc, true, table, opened))
    }

    /// Keeps no list of the entries from now on. The book then takes no memory for its entries, and up to 2^60 of them
    /// fit. All else is as with a list, except that `into_parts` returns no entries.
    pub fn without_list(self) -> Book<I, D>
        requires { self.entries ≡ [] }
        ensures { result ≡ record self { kept = false } }
    {
        let mut book = self;
        book.history.keep_no_list();
        book
    }

    /// Tries to take memory for this many more entries at once, so that the history is not moved as it grows. If memory
    /// is short, nothing happens. A book without a list of its entries needs no memory, and nothing happens.
    pub fn make_room(&mut self, entries: usize)
        ensures { self.new ≡ self.old }
    {
        self.history.make_room(entries);
    }

    /// How many entries the history has. The second clause states what holds of each book.
    pub fn events(&self) -> u64
        ensures events { result ≡ length self.now.entries }
        ensures book { IsBook D.drive I.WIDTH self.now }
    {
        self.keep();
        self.history.len() as u64
    }

    /// How many of the entries are calls. It is the place of the last call, and 0 if there is none.
    pub fn calls(&self) -> u64
        ensures calls { result ≡ call_count self.now.entries }
        ensures book { IsBook D.drive I.WIDTH self.now }
    {
        self.keep();
        self.history.calls()
    }

    /// Whether there is a log. If so, each change waits for its device, unless the records wait for `sync`.
    pub fn has_log(&self) -> bool
        ensures { result ≡ is_some self.now.log }
    {
        self.journal.has_log()
    }

    /// How many records the log has, those that wait for `sync` among them: 0 without a log.
    pub fn cells(&self) -> u64
        ensures cells { result ≡ cells_in self.now.log }
        ensures book { IsBook D.drive I.WIDTH self.now }
    {
        self.keep();
        self.journal.cells()
    }

    /// The first record that the file may lack because an append failed, or `None`. After a failure the book takes no more
    /// calls.
    pub fn closed(&self) -> Option<u64>
        ensures closed { result ≡ failed_cell self.now.entries }
        ensures book { IsBook D.drive I.WIDTH self.now }
    {
        self.keep();
        self.journal.closed()
    }

    // Makes the type's invariant known to the checker.
    fn keep(&self)
        ensures { IsBook D.drive I.WIDTH self.now }
    {
        // Calling `len` makes it known that the table's index stands for its world.
        let _points = self.table.len();
    }

    /// The first leaf in key order that has more rows than the bucket size, bits left and no open split.
    pub fn full(&self) -> Option<Name>
        ensures full { result ≡ full_leaf I.WIDTH self.now.bucket (state_after I.WIDTH self.now.opening self.now.entries) }
        ensures book { IsBook D.drive I.WIDTH self.now }
    {
        self.keep();
        self.table.first_free(self.splits.as_slice())
    }

    /// Executes a change or a find, and appends its entry. All memory is taken before the log is written.
    pub fn update(&mut self, session: u8, row: u32, op: &Op) -> Result<Done, BookFault>
        requires { IsUpdate op.now }
        ensures ok { IfOk result (λ d. Replies I.WIDTH self.old self.new session row op.now d.place d.answer d.full) }
        ensures refused { IsRefusedBy IsMemoryOrDisk (update_refusal self.old op.now) result }
        ensures err { IfErr result (LeavesRefused D.drive (Lost.Call session row op.now) self.old self.new) }
        ensures any_moment { LeavesCells D.drive I.WIDTH (Entry.Call session row op.now) self.old self.new }
        ensures book { AreBooks D.drive I.WIDTH self.old self.new }
    {
        self.keep();
        self.check_update(op)?;
        self.history.reserve(self.splits.len() + 1)?;
        let op = *op;
        let mut step = Step {
            history: &mut self.history,
            journal: &mut self.journal,
            lost: Lost::Call { session, row, op },
        };
        let answer = match self.table.update(&op, self.splits.as_slice(), &mut step) {
            Ok(answer) => answer,
            Err(undone) => {
                let cell = self.journal.written();
                self.keep();
                return Err(fault_of(undone, cell));
            }
        };
        note_quiet(&mut self.history, &answer, Entry::Call { session, row, op });
        Ok(Done {
            place: self.history.calls(),
            answer,
            full: self.full(),
        })
    }

    fn check_update(&self, op: &Op) -> Result<(), BookFault>
        ensures { IsRefusedBy IsNoFault (update_refusal self.now op.now) result }
    {
        self.check_call()?;
        if self.journal.is_full() && self.table.would_change(op) {
            return Err(BookFault::LogFull);
        }
        Ok(())
    }

    fn check_call(&self) -> Result<(), BookFault>
        ensures { IsRefusedBy IsNoFault (call_refusal self.now.kept self.now.entries) result }
    {
        if let Some(cell) = self.closed() {
            return Err(BookFault::Closed { cell });
        }
        if self.events() >= self.history.most() {
            return Err(BookFault::HistoryFull);
        }
        Ok(())
    }

    /// Appends the entry of a query that is answered elsewhere, and returns its place.
    pub fn note(&mut self, session: u8, row: u32, op: &Op) -> Result<u64, BookFault>
        requires { IsQuery op.now }
        ensures ok { IfOk result (λ place. Notes self.old self.new session row op.now place) }
        ensures leaves { self.new.leaves ≡ self.old.leaves }
        ensures refused { IsRefusedBy IsMemory (call_refusal self.old.kept self.old.entries) result }
        ensures err { IfErr result (λ _. self.new ≡ self.old) }
        ensures book { AreBooks D.drive I.WIDTH self.old self.new }
    {
        self.keep();
        self.check_call()?;
        self.history.reserve(self.splits.len() + 1)?;
        let op = *op;
        self.history.push(Entry::Call { session, row, op });
        let place = self.history.calls();
        self.keep();
        Ok(place)
    }

    /// Appends the entry of a query that is answered elsewhere, and returns the index at that place.
    pub fn snapshot(&mut self, session: u8, row: u32, op: &Op) -> Result<Snapshot<I>, BookFault>
        requires { IsQuery op.now }
        ensures ok { IfOk result (λ s. Notes self.old self.new session row op.now s.place) }
        ensures index { IfOk result (λ s. StandsAfter I.WIDTH self.new (I.leaves s.index)) }
        ensures leaves { IfOk result (λ s. (I.leaves s.index ≡ self.old.leaves) × (self.new.leaves ≡ self.old.leaves)) }
        ensures refused { IsRefusedBy IsMemory (call_refusal self.old.kept self.old.entries) result }
        ensures err { IfErr result (λ _. self.new ≡ self.old) }
        ensures book { AreBooks D.drive I.WIDTH self.old self.new }
    {
        self.keep();
        self.check_call()?;
        let index = self.table.share()?;
        let place = self.note(session, row, op)?;
        Ok(Snapshot { index, place })
    }

    /// Returns an equal index, for queries whose entries are appended after they are answered.
    pub fn glance(&self) -> Result<I, Memory>
        ensures index { IfOk result (λ index. StandsAfter I.WIDTH self.now (I.leaves index)) }
        ensures leaves { IfOk result (λ index. I.leaves index ≡ self.now.leaves) }
        ensures book { IsBook D.drive I.WIDTH self.now }
    {
        self.keep();
        self.table.share()
    }

    /// Whether no entry after the first `events` may have changed the objects. Then the world is still the one after
    /// those.
    pub fn is_still_since(&self, events: u64) -> bool
        ensures { result ≡ is_still_since events self.now.entries }
    {
        self.history.is_still_since(events as usize)
    }

    /// Takes the book apart. Records that wait are not written: call `sync` before.
    pub fn into_parts(self) -> BookParts<I, D>
        ensures leaves { I.leaves result.index ≡ self.leaves }
        ensures disk { result.disk ≡ disk_in self.log }
        ensures entries { result.entries ≡ list_in self.kept self.entries }
    {
        BookParts {
            index: self.table.into_index(),
            disk: self.journal.give_back(),
            entries: Entries::from_vec(self.history.into_entries()),
        }
    }
}

// A book without entries on an opened log, with a table of what was found there. `kept` says whether it keeps the list of
// its entries.
fn on_log<I: Index, D: LogDisk>(
    alloc: Global,
    kept: bool,
    table: PointTable<I>,
    opened: Opened<D>,
) -> Book<I, D>
    requires opened { IsOpenedLog D.drive I.WIDTH opened.seen opened.start.value opened.log }
    requires world { table.world ≡ opened.seen.world }
    requires leaves { names_of table.leaves ≡ opened.seen.leaves }
    ensures { result ≡ book_on kept opened.seen opened.log opened.start.value table.leaves table.size }
{
    let begun = opened.seen.begun;
    Book {
        opening: Opening::of(&table, begun),
        table,
        splits: OpenSplits::after(alloc, begun),
        history: History::empty(alloc, kept),
        journal: Journal::opened(opened.log, opened.start),
    }
}

// Appends the entry of a call that changed nothing. A change got its entry with its record.
fn note_quiet(history: &mut History, answer: &Answer, call: Entry)
    requires { is_change answer.now ≡ false → (0 < history.old.room) × (length history.old.entries < 2 ^ 63) }
    ensures noted { is_change answer.now ≡ true → history.new ≡ history.old }
    ensures quiet { is_change answer.now ≡ false → history.new ≡ with_entry call history.old }
{
    if !is_change(answer) {
        history.push(call);
    }
}

/// Whether an answer is that of a change.
pub(crate) fn is_change(answer: &Answer) -> bool
    ensures { result ≡ is_change answer.now }
{
    matches!(answer, Answer::Done | Answer::Moved(_) | Answer::Gone(_))
}
