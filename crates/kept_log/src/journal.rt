//! The log of a store, and what it has kept since it was opened. A store may have no log.
ghost use Rattle.std.specs.Prelude.{◌≡◌, ◌≤◌, ◌<◌, ◌+◌, ◌==◌, ℕ, [], Some, None, is_some, length, true, false, OnOk, IfOk, IfErr};
ghost use Rattle.std.specs.Option.{option_map};
ghost use Rattle.plain_list.specs.History.{failed_cell};
ghost use Rattle.plain_list.specs.State.{State, state_after};
ghost use Rattle.split_log.specs.LogView.{most_cells};
ghost use Rattle.kept_log.specs.Kept.{IsOpened};
ghost use Rattle.kept_log.specs.KeptView.{own_of, waiting_of};
ghost use Rattle.kept_log.specs.Moved.{alone, fewer, seen_first};
ghost use Rattle.kept_log.specs.Steps.{IsSince};
ghost use Rattle.kept_log.specs.Journal.{cells_in, written_in, waiting_in, failed_in, disk_in, log_in, moves_in, moves_from, moved_to, waits_from, KeepsIn, IsSinceIn, Added, Missed, LeavesNext, AddedAll, NotAdded, LeavesNextAll, Synced, NotSynced, LeavesSynced, Stops, StopsIn};

use crate::faults::{AppendAllLost, AppendLost};
use crate::holding::{append_all_now, append_now, hold, hold_all, release};
use crate::lessening::{all_lessened, lessened};
use crate::past::Past;
use cell_format::Cell;
use disk_trait::LogDisk;
use split_log::{MOST_CELLS, SplitLog, Waiting};
use std::alloc::Global;
use std::marker::Model;
use std::snapshot::Snapshot;

/// The log of a store, if there is one. Without a log a journal keeps nothing.
#[derive(Drop)]
pub struct Journal<D: LogDisk> {
    log: Option<Current<D>>,
}

impl<D: LogDisk> Model for Journal<D> {
    ghost use Rattle.std.specs.Prelude.{Option};
    ghost use Rattle.kept_log.specs.KeptView.{KeptView};

    ghost Value = { Option (KeptView D) };

    ghost view = { λ j. j.log };
}

// What came before a log that has replaced another one.
#[derive(Drop)]
struct Before<D: LogDisk> {
    // The entries of the history until then, the drive at the first opening, and the number of cells then. They are for
    // contracts alone.
    past: Past,
    start: Snapshot<D>,
    first: Snapshot<u64>,
    // How many more splits had begun by then than the log's own cells tell of.
    skipped: u64,
}

impl<D: LogDisk> Model for Before<D> {
    ghost use Rattle.kept_log.specs.KeptView.{Earlier};

    ghost Value = { Earlier D };

    ghost view = { λ b. record { entries = b.past.entries; skipped = b.skipped; start = b.start.value; first = b.first.value } };
}

// The log as it is now, and what came before it, if it has replaced another one.
#[derive(Drop)]
struct Current<D: LogDisk> {
    kept: Kept<D>,
    before: Option<Before<D>>,
}

impl<D: LogDisk> Model for Current<D> {
    ghost use Rattle.kept_log.specs.KeptView.{KeptView};

    ghost Value = { KeptView D };

    ghost use Rattle.kept_log.specs.Moved.{seen_as};

    ghost view = { λ c. seen_as c.kept c.before };
}

// A log by itself, from its own opening on.
#[derive(Drop)]
struct Kept<D: LogDisk> {
    log: SplitLog<D>,
    // The cells that wait, if cells wait for a sync.
    waiting: Option<Waiting>,
    // Whether a fresh log may replace it.
    moves: bool,
    // The drive at the opening, and the number of cells then. They are for contracts alone.
    start: Snapshot<D>,
    first: Snapshot<u64>,
}

impl<D: LogDisk> Model for Kept<D> {
    ghost use Rattle.kept_log.specs.KeptView.{KeptView};

    ghost Value = { KeptView D };

    ghost use Rattle.std.specs.Prelude.{◌+◌, ◌≤◌, length, is_some};
    ghost use Rattle.split_log.specs.LogView.{most_cells};
    ghost use Rattle.split_log.specs.Waiting.{most_waiting};
    ghost use Rattle.kept_log.specs.KeptView.{own_of, waiting_of};

    ghost view = { λ k. own_of k.log k.start.value k.first.value (waiting_of k.waiting) (is_some k.waiting) k.moves };

    ghost invariant = { λ k. (k.log.cells + length (waiting_of k.waiting) ≤ most_cells) × (length (waiting_of k.waiting) ≤ most_waiting) };
}

impl<D: LogDisk> Journal<D> {
    /// A journal with no log.
    pub fn none() -> Journal<D>
        ensures { result ≡ None }
    {
        Journal { log: None }
    }

    /// A journal over a log that was just opened. `start` is the drive before the opening.
    pub fn opened(log: SplitLog<D>, start: Snapshot<D>) -> Journal<D>
        ensures value { result ≡ Some (own_of log start.value log.cells [] false false) }
        ensures keeps { (w : ℕ) (s : State) → IsOpened w s (D.drive start.value) (D.drive log.disk) → log.failed ≡ None
            → KeepsIn D.drive w s [] result }
    {
        let first = Snapshot::of(&log.cells());
        Journal {
            log: Some(Current {
                kept: Kept {
                    log,
                    waiting: None,
                    moves: false,
                    start,
                    first,
                },
                before: None,
            }),
        }
    }

    /// Whether there is a log.
    pub fn has_log(&self) -> bool
        ensures { result ≡ is_some self.now }
    {
        self.log.is_some()
    }

    /// Lets the cells that are added from now on wait for `sync`. It takes the memory in which they wait, 2 MB. `Err` gives
    /// the journal back as it was: there was no memory. Without a log nothing changes.
    pub fn at_sync(self, alloc: Global) -> Result<Journal<D>, Journal<D>>
        ensures ok { IfOk result (λ journal. journal ≡ option_map waits_from self) }
        ensures refused { IfErr result (λ journal. journal ≡ self) }
    {
        let Some(current) = self.log else {
            return Ok(Journal { log: None });
        };
        let Current { kept, before } = current;
        match kept.at_sync(alloc) {
            Ok(kept) => Ok(Journal {
                log: Some(Current { kept, before }),
            }),
            Err(kept) => Err(Journal {
                log: Some(Current { kept, before }),
            }),
        }
    }

    /// Lets a fresh log replace the log from now on. Without a log nothing changes.
    pub fn may_move(self) -> Journal<D>
        ensures { result ≡ option_map moves_from self }
    {
        let Some(current) = self.log else {
            return Journal { log: None };
        };
        let Current { kept, before } = current;
        let Kept {
            log,
            waiting,
            moves: _,
            start,
            first,
        } = kept;
        Journal {
            log: Some(Current {
                kept: Kept {
                    log,
                    waiting,
                    moves: true,
                    start,
                    first,
                },
                before,
            }),
        }
    }

    /// Goes on with a fresh log that was just opened, in place of the log. `start` is the drive before that opening, and
    /// `past` are all entries until now. `skipped` is how many more splits they began than the fresh log's cells tell of.
    /// Returns the old log. Cells that wait are not written to it, and wait no longer: the fresh log stands for them too.
    /// Without a log nothing changes.
    pub fn move_to(
        &mut self,
        log: SplitLog<D>,
        start: Snapshot<D>,
        past: Past,
        skipped: u64,
    ) -> Option<SplitLog<D>>
        ensures moved { self.new ≡ option_map (moved_to past.entries skipped log start.value) self.old }
        ensures log { result ≡ log_in self.old }
        ensures keeps { (w : ℕ) (s : State) → moves_in self.old ≡ true → failed_cell past.entries ≡ None → log.failed ≡ None
            → (state_after w s past.entries).splits ≡ [] → skipped ≤ (state_after w s past.entries).begun
            → IsOpened w (fewer skipped (state_after w s past.entries)) (D.drive start.value) (D.drive log.disk)
            → KeepsIn D.drive w s past.entries self.new }
    {
        let current = self.log.take()?;
        let Current { kept, before } = current;
        let Kept {
            log: old,
            waiting,
            moves,
            start: own_start,
            first: own_first,
        } = kept;
        let (first_start, first) = first_opening(before, own_start, own_first);
        let cells = Snapshot::of(&log.cells());
        self.log = Some(Current {
            kept: Kept {
                log,
                waiting: emptied(waiting),
                moves,
                start,
                first: cells,
            },
            before: Some(Before {
                past,
                start: first_start,
                first,
                skipped,
            }),
        });
        Some(old)
    }

    /// Takes no more cells from now on, as after a disk fault. No device call is made. Returns the number of cells in the
    /// file, which a failed append names, or `None` without a log.
    pub fn stop(&mut self) -> Option<u64>
        requires open { failed_in self.old ≡ None }
        requires moves { is_some self.old ≡ true → moves_in self.old ≡ true }

        ensures stops { StopsIn D.drive result self.old self.new }
        ensures since { IsSinceIn self.old self.new }
    {
        let Some(current) = &mut self.log else {
            return None;
        };
        Some(current.stop())
    }

    /// The number of cells, those that wait included, or 0 without a log.
    pub fn cells(&self) -> u64
        ensures cells { result ≡ cells_in self.now }
        ensures most { cells_in self.now ≤ most_cells }
    {
        match &self.log {
            Some(current) => current.kept.cells(),
            None => 0,
        }
    }

    /// The number of cells in the file, or 0 without a log. A cell that is lost next has this number.
    pub fn written(&self) -> u64
        ensures { result ≡ written_in self.now }
    {
        match &self.log {
            Some(current) => current.kept.log.cells(),
            None => 0,
        }
    }

    /// The number of cells that wait for `sync`.
    pub fn waiting(&self) -> usize
        ensures { result ≡ length (waiting_in self.now) }
    {
        match &self.log {
            Some(current) => current.kept.waiting(),
            None => 0,
        }
    }

    /// The number of the first cell that the file may lack since an append failed. After that append the log takes no
    /// more cells.
    pub fn closed(&self) -> Option<u64>
        ensures { result ≡ failed_in self.now }
    {
        match &self.log {
            Some(current) => current.kept.failed(),
            None => None,
        }
    }

    /// Whether there is a log that has all the cells it may have (`split_log::MOST_CELLS`).
    pub fn is_full(&self) -> bool
        ensures { result ≡ (cells_in self.now == most_cells) }
    {
        self.cells() == MOST_CELLS
    }

    /// Adds a cell, if there is a log. Where cells wait for `sync`, the cell waits too and no device call is made, unless
    /// `split_log::MOST_WAITING` cells wait already: then it and all that wait are added to the file at once, and a crash
    /// leaves all of them or none. After a disk fault the log takes no more cells.
    pub fn append(&mut self, cell: &Cell) -> Result<(), AppendLost>
        requires open { failed_in self.old ≡ None }
        requires room { cells_in self.old < most_cells }

        ensures ok { OnOk result (Added D.drive cell.now self.old self.new) }
        ensures lost { IfErr result (λ e. Missed D.drive cell.now e.cell self.old self.new) }
        ensures any_moment { LeavesNext D.drive cell.now self.old self.new }
        ensures since { IsSinceIn self.old self.new }
    {
        let Some(current) = &mut self.log else {
            return Ok(());
        };
        current.append(cell)
    }

    /// Adds a batch of cells, if there is a log. A crash leaves all of them or none. Where cells wait for `sync`, these
    /// wait too, unless more than `split_log::MOST_WAITING` would wait: then they and all that wait are added to the file
    /// at once. After a disk fault the log takes no more cells.
    pub fn append_all(&mut self, alloc: Global, cells: &[Cell]) -> Result<(), AppendAllLost>
        requires open { failed_in self.old ≡ None }
        requires room { cells_in self.old + length cells.now ≤ most_cells }

        ensures ok { OnOk result (AddedAll D.drive cells.now self.old self.new) }
        ensures lost { IfErr result (λ e. NotAdded D.drive cells.now e self.old self.new) }
        ensures any_moment { LeavesNextAll D.drive cells.now self.old self.new }
        ensures since { IsSinceIn self.old self.new }
    {
        let Some(current) = &mut self.log else {
            return Ok(());
        };
        current.append_all(alloc, cells)
    }

    /// Adds all cells that wait to the file. A crash leaves all of them or none. If none wait it makes no device call.
    /// After a disk fault the log takes no more cells.
    pub fn sync(&mut self) -> Result<(), AppendLost>
        requires open { failed_in self.old ≡ None }

        ensures ok { OnOk result (Synced D.drive self.old self.new) }
        ensures lost { IfErr result (λ e. NotSynced D.drive e.cell self.old self.new) }
        ensures any_moment { LeavesSynced D.drive self.old self.new }
        ensures since { IsSinceIn self.old self.new }
    {
        let Some(current) = &mut self.log else {
            return Ok(());
        };
        current.sync()
    }

    /// Returns the log as it is now, if there is one. Cells that wait are lost.
    pub fn into_log(self) -> Option<SplitLog<D>>
        ensures { result ≡ log_in self }
    {
        match self.log {
            Some(current) => {
                let kept = current.kept;
                Some(kept.log)
            }
            None => None,
        }
    }

    /// Returns the drive, whatever its file holds, if there is a log.
    pub fn give_back(self) -> Option<D>
        ensures { result ≡ disk_in self }
    {
        match self.log {
            Some(current) => {
                let kept = current.kept;
                Some(kept.log.give_back())
            }
            None => None,
        }
    }
}

impl<D: LogDisk> Current<D> {
    fn append(&mut self, cell: &Cell) -> Result<(), AppendLost>
        requires open { self.old.failed ≡ None }
        requires room { self.old.cells + length self.old.waiting < most_cells }

        ensures ok { OnOk result (Added D.drive cell.now (Some self.old) (Some self.new)) }
        ensures lost { IfErr result (λ e. Missed D.drive cell.now e.cell (Some self.old) (Some self.new)) }
        ensures any_moment { LeavesNext D.drive cell.now (Some self.old) (Some self.new) }
        ensures since { IsSince self.old self.new }
    {
        match &self.before {
            None => self.kept.append(cell),
            Some(before) => self.kept.append(&lessened(cell, before.skipped)),
        }
    }

    fn append_all(&mut self, alloc: Global, cells: &[Cell]) -> Result<(), AppendAllLost>
        requires open { self.old.failed ≡ None }
        requires room { self.old.cells + length self.old.waiting + length cells.now ≤ most_cells }

        ensures ok { OnOk result (AddedAll D.drive cells.now (Some self.old) (Some self.new)) }
        ensures lost { IfErr result (λ e. NotAdded D.drive cells.now e (Some self.old) (Some self.new)) }
        ensures any_moment { LeavesNextAll D.drive cells.now (Some self.old) (Some self.new) }
        ensures since { IsSince self.old self.new }
    {
        let Some(before) = &self.before else {
            return self.kept.append_all(alloc, cells);
        };
        match all_lessened(alloc, cells, before.skipped) {
            Ok(cells) => self.kept.append_all(alloc, cells.as_slice()),
            Err(_) => Err(AppendAllLost::Memory),
        }
    }

    fn sync(&mut self) -> Result<(), AppendLost>
        requires open { self.old.failed ≡ None }

        ensures ok { OnOk result (Synced D.drive (Some self.old) (Some self.new)) }
        ensures lost { IfErr result (λ e. NotSynced D.drive e.cell (Some self.old) (Some self.new)) }
        ensures any_moment { LeavesSynced D.drive (Some self.old) (Some self.new) }
        ensures since { IsSince self.old self.new }
    {
        self.kept.sync()
    }

    fn stop(&mut self) -> u64
        requires open { self.old.failed ≡ None }
        requires moves { self.old.moves ≡ true }

        ensures stops { Stops D.drive result (Some self.old) (Some self.new) }
        ensures since { IsSince self.old self.new }
    {
        self.kept.stop()
    }
}

impl<D: LogDisk> Kept<D> {
    fn at_sync(self, alloc: Global) -> Result<Kept<D>, Kept<D>>
        ensures ok { IfOk result (λ kept. kept ≡ waits_from self) }
        ensures refused { IfErr result (λ kept. kept ≡ self) }
    {
        if self.waiting.is_some() {
            return Ok(self);
        }
        match Waiting::new(alloc) {
            Ok(waiting) => Ok(Kept {
                log: self.log,
                waiting: Some(waiting),
                moves: self.moves,
                start: self.start,
                first: self.first,
            }),
            Err(_) => Err(self),
        }
    }

    fn cells(&self) -> u64
        ensures cells { result ≡ self.now.cells + length self.now.waiting }
        ensures most { self.now.cells + length self.now.waiting ≤ most_cells }
    {
        self.log.cells() + self.waiting() as u64
    }

    fn stop(&mut self) -> u64
        requires open { self.old.failed ≡ None }
        requires moves { self.old.moves ≡ true }

        ensures stops { Stops D.drive result (Some (alone self.old)) (Some (alone self.new)) }
        ensures since { IsSince (alone self.old) (alone self.new) }
    {
        let number = self.log.cells();
        self.log.stop();
        number
    }

    fn failed(&self) -> Option<u64>
        ensures { result ≡ self.now.failed }
    {
        self.log.failed()
    }

    fn waiting(&self) -> usize
        ensures { result ≡ length self.now.waiting }
    {
        match &self.waiting {
            Some(waiting) => waiting.len(),
            None => 0,
        }
    }

    fn append(&mut self, cell: &Cell) -> Result<(), AppendLost>
        requires open { self.old.failed ≡ None }
        requires room { self.old.cells + length self.old.waiting < most_cells }

        ensures ok { OnOk result (Added D.drive cell.now (Some (alone self.old)) (Some (alone self.new))) }
        ensures lost { IfErr result (λ e. Missed D.drive cell.now e.cell (Some (alone self.old)) (Some (alone self.new))) }
        ensures any_moment { LeavesNext D.drive cell.now (Some (alone self.old)) (Some (alone self.new)) }
        ensures since { IsSince (alone self.old) (alone self.new) }
    {
        match &mut self.waiting {
            None => append_now(&mut self.log, cell),
            Some(waiting) => hold(&mut self.log, waiting, cell),
        }
    }

    fn append_all(&mut self, alloc: Global, cells: &[Cell]) -> Result<(), AppendAllLost>
        requires open { self.old.failed ≡ None }
        requires room { self.old.cells + length self.old.waiting + length cells.now ≤ most_cells }

        ensures ok { OnOk result (AddedAll D.drive cells.now (Some (alone self.old)) (Some (alone self.new))) }
        ensures lost { IfErr result (λ e. NotAdded D.drive cells.now e (Some (alone self.old)) (Some (alone self.new))) }
        ensures any_moment { LeavesNextAll D.drive cells.now (Some (alone self.old)) (Some (alone self.new)) }
        ensures since { IsSince (alone self.old) (alone self.new) }
    {
        match &mut self.waiting {
            None => append_all_now(&mut self.log, alloc, cells),
            Some(waiting) => hold_all(&mut self.log, waiting, alloc, cells),
        }
    }

    fn sync(&mut self) -> Result<(), AppendLost>
        requires open { self.old.failed ≡ None }

        ensures ok { OnOk result (Synced D.drive (Some (alone self.old)) (Some (alone self.new))) }
        ensures lost { IfErr result (λ e. NotSynced D.drive e.cell (Some (alone self.old)) (Some (alone self.new))) }
        ensures any_moment { LeavesSynced D.drive (Some (alone self.old)) (Some (alone self.new)) }
        ensures since { IsSince (alone self.old) (alone self.new) }
    {
        match &mut self.waiting {
            None => Ok(()),
            Some(waiting) => release(&mut self.log, waiting),
        }
    }
}

// The drive at the first opening and the number of cells then, of a log with this opening of its own.
fn first_opening<D: LogDisk>(
    before: Option<Before<D>>,
    start: Snapshot<D>,
    first: Snapshot<u64>,
) -> (Snapshot<D>, Snapshot<u64>)
    ensures start { result.0.value ≡ (seen_first start.value first.value before).0 }
    ensures first { result.1.value ≡ (seen_first start.value first.value before).1 }
{
    match before {
        None => (start, first),
        Some(before) => (before.start, before.first),
    }
}

// The same room, with no cell in it.
fn emptied(waiting: Option<Waiting>) -> Option<Waiting>
    ensures same { is_some result ≡ is_some waiting }
    ensures none { waiting_of result ≡ [] }
{
    match waiting {
        Some(mut waiting) => {
            waiting.truncate(0);
            Some(waiting)
        }
        None => None,
    }
}
