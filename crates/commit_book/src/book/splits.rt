//! The steps of a split: its begin, and its install or its abandonment.
ghost use Rattle.std.specs.Prelude.{◌≡◌, ◌+◌, length, IfOk, IfErr, OnOk};
ghost use Rattle.plain_list.specs.State.{state_after};
ghost use Rattle.plain_list.specs.declared.entries.Lost.{Lost};
ghost use Rattle.plain_list.specs.declared.entries.Entry.{Entry};
ghost use Rattle.commit_book.specs.BookView.{next_number};
ghost use Rattle.commit_book.specs.Crash.{LeavesCells};
ghost use Rattle.commit_book.specs.IsBook.{AreBooks};
ghost use Rattle.commit_book.specs.Refusals.{IsRefusedBy, IsDisk, IsMemoryOrDisk, IsNoFault, LeavesRefused, begin_refusal, has_no_room, most_events_to_begin, room_refusal, leaf_refusal, end_refusal, has_base, prepared_refusal, abandon_refusal};
ghost use Rattle.kept_log.specs.Journal.{cells_in};
ghost use Rattle.commit_book.specs.SplitSteps.{Begins, CanPrepare, Installs, Abandons};

use crate::book::Book;
use crate::faults::BookFault;
use crate::steps::{Step, fault_of};
use bucket_versions::Commit;
use disk_trait::LogDisk;
use index_layer::Index;
use plain_list::{Entry, Lost};
use split_prepare::{Prepared, SplitTicket};
use zorder::Name;

/// If the log has more records than this, no split begins.
pub const MOST_CELLS_TO_BEGIN: u64 = 16_000_000;

/// If a history whose list is kept has more entries than this, no split begins.
pub const MOST_EVENTS_TO_BEGIN: u64 = 4_000_000;

/// If a history whose list isn't kept has more entries than this, no split begins.
pub const MOST_EVENTS_TO_BEGIN_UNLISTED: u64 = (1 << 60) - 194_304;

impl<I: Index, D: LogDisk> Book<I, D> {
    /// Begins a split. The leaf's rows become its base, which stays unchanged until the split ends. The memory for the
    /// entry that ends the split is taken here.
    pub fn begin(&mut self, name: &Name) -> Result<SplitTicket, BookFault>
        ensures ok { IfOk result (λ t. Begins I.WIDTH self.old self.new name.now t) }
        ensures ticket { IfOk result (λ t. CanPrepare I.WIDTH t) }
        ensures refused { IsRefusedBy IsMemoryOrDisk (begin_refusal I.WIDTH self.old name.now) result }
        ensures err { IfErr result (LeavesRefused D.drive (Lost.Begin (next_number I.WIDTH self.old) name.now) self.old self.new) }
        ensures any_moment { LeavesCells D.drive I.WIDTH (Entry.Begin (next_number I.WIDTH self.old) name.now) self.old self.new }
        ensures book { AreBooks D.drive I.WIDTH self.old self.new }
    {
        self.keep();
        self.check_begin(name)?;
        self.splits.reserve()?;
        // One more entry than the begin: the one that ends the split.
        self.history.reserve(self.splits.len() + 2)?;
        let number = self.splits.next_number();
        let name = *name;
        let mut step = Step {
            history: &mut self.history,
            journal: &mut self.journal,
            lost: Lost::Begin { number, name },
        };
        let bucket = match self.table.fold(&name, &mut step) {
            Ok(bucket) => bucket,
            Err(undone) => {
                let cell = self.journal.written();
                self.keep();
                return Err(fault_of(undone, cell));
            }
        };
        self.splits.push(&name);
        self.keep();
        Ok(SplitTicket {
            number,
            name,
            bucket,
        })
    }

    fn check_begin(&self, name: &Name) -> Result<(), BookFault>
        ensures { IsRefusedBy IsNoFault (begin_refusal I.WIDTH self.now name.now) result }
    {
        if let Some(cell) = self.closed() {
            return Err(BookFault::Closed { cell });
        }
        self.check_room()?;
        self.check_leaf(name)
    }

    fn check_room(&self) -> Result<(), BookFault>
        ensures { IsRefusedBy IsNoFault (room_refusal self.now.kept (cells_in self.now.log) (length self.now.entries)) result }
    {
        if self.is_near_end() {
            return Err(BookFault::Room {
                cells: self.cells(),
                events: self.events(),
            });
        }
        Ok(())
    }

    /// Whether the log has too many records, or the history too many entries, for another split. `room` returns what
    /// else fits.
    pub fn is_near_end(&self) -> bool
        ensures { result ≡ has_no_room self.now.kept (cells_in self.now.log) (length self.now.entries) }
    {
        self.cells() > MOST_CELLS_TO_BEGIN || self.events() > self.most_events_to_begin()
    }

    fn most_events_to_begin(&self) -> u64
        ensures { result ≡ most_events_to_begin self.now.kept }
    {
        if self.history.is_kept() {
            MOST_EVENTS_TO_BEGIN
        } else {
            MOST_EVENTS_TO_BEGIN_UNLISTED
        }
    }

    fn check_leaf(&self, name: &Name) -> Result<(), BookFault>
        ensures { IsRefusedBy IsNoFault (leaf_refusal I.WIDTH (state_after I.WIDTH self.now.opening self.now.entries) name.now) result }
    {
        if !self.table.has_leaf(name) {
            return Err(BookFault::NoLeaf);
        }
        if u32::from(name.len()) + u32::from(I::WIDTH) > 64 {
            return Err(BookFault::Deep);
        }
        match self.splits.number(name) {
            Some(number) => Err(BookFault::Splitting { number }),
            None => Ok(()),
        }
    }

    /// Puts the children of a leaf in its place. Each has the rows that were cut for it, with all changes since the
    /// begin.
    pub fn install(&mut self, prepared: &Prepared) -> Result<(), BookFault>
        requires { prepared.now.width ≡ I.WIDTH }
        ensures ok { OnOk result (Installs I.WIDTH self.old self.new prepared.now.number prepared.now.name) }
        ensures refused { IsRefusedBy IsMemoryOrDisk (prepared_refusal I.WIDTH self.old prepared.now) result }
        ensures err { IfErr result (LeavesRefused D.drive (Lost.Install prepared.now.number) self.old self.new) }
        ensures any_moment { LeavesCells D.drive I.WIDTH (Entry.Install prepared.now.number) self.old self.new }
        ensures book { AreBooks D.drive I.WIDTH self.old self.new }
    {
        self.keep();
        self.check_install(prepared)?;
        let name = prepared.name();
        let number = prepared.number();
        let mut step = Step {
            history: &mut self.history,
            journal: &mut self.journal,
            lost: Lost::Install { number },
        };
        if let Err(undone) = self.table.divide(&name, prepared.children(), &mut step) {
            let cell = self.journal.written();
            self.keep();
            return Err(fault_of(undone, cell));
        }
        // Calling `len` makes it known that the table's leaves are in order.
        let _told = self.table.len();
        self.splits.remove(number);
        self.keep();
        Ok(())
    }

    fn check_install(&self, prepared: &Prepared) -> Result<(), BookFault>
        ensures { IsRefusedBy IsNoFault (prepared_refusal I.WIDTH self.now prepared.now) result }
    {
        self.check_end()?;
        let number = prepared.number();
        let name = prepared.name();
        if self.splits.is_open(number, &name) && self.has_base(&name, prepared) {
            Ok(())
        } else {
            Err(BookFault::Stale { number })
        }
    }

    // Refuses the end of a split if the book is closed, or has no room for an entry and a record.
    fn check_end(&self) -> Result<(), BookFault>
        ensures { IsRefusedBy IsNoFault (end_refusal self.now.kept (cells_in self.now.log) self.now.entries) result }
    {
        self.check_call()?;
        if self.journal.is_full() {
            return Err(BookFault::LogFull);
        }
        Ok(())
    }

    // Whether the base of a name's leaf is what was cut. All rows are compared, because a `Prepared` may come from
    // anywhere.
    fn has_base(&self, name: &Name, prepared: &Prepared) -> bool
        ensures { result ≡ has_base self.now.leaves name.now prepared.now.base }
    {
        match self.table.bucket(name) {
            Some(bucket) => prepared.is_cut_from(bucket),
            None => false,
        }
    }

    /// Ends a split and leaves the index unchanged. It takes no memory.
    pub fn abandon(&mut self, number: u64) -> Result<(), BookFault>
        ensures ok { OnOk result (Abandons self.old self.new number) }
        ensures refused { IsRefusedBy IsDisk (abandon_refusal I.WIDTH self.old number) result }
        ensures err { IfErr result (LeavesRefused D.drive (Lost.Abandon number) self.old self.new) }
        ensures any_moment { LeavesCells D.drive I.WIDTH (Entry.Abandon number) self.old self.new }
        ensures book { AreBooks D.drive I.WIDTH self.old self.new }
    {
        self.keep();
        self.check_abandon(number)?;
        let mut step = Step {
            history: &mut self.history,
            journal: &mut self.journal,
            lost: Lost::Abandon { number },
        };
        if !step.commit() {
            let cell = self.journal.written();
            self.keep();
            return Err(BookFault::Disk { cell });
        }
        self.splits.remove(number);
        self.keep();
        Ok(())
    }

    fn check_abandon(&self, number: u64) -> Result<(), BookFault>
        ensures { IsRefusedBy IsNoFault (abandon_refusal I.WIDTH self.now number) result }
    {
        self.check_end()?;
        match self.splits.name(number) {
            Some(_) => Ok(()),
            None => Err(BookFault::NotOpen { number }),
        }
    }
}
