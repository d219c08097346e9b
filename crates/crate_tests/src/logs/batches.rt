//! Records that are appended together, and what a crash leaves of them.
use crate::checks::{holds, same_bytes};
use crate::logs::fixtures::{AT, ONE_CELL, PUT_7, log_of};
use crate::memory::disk_of;
use cell_format::Cell;
use disk_mem::{DiskCall, Fail, MemDisk};
use disk_trait::LogDisk;
use kept_log::Journal;
use recovery::open;
use split_log::{AppendAllFault, SplitLog};
use std::alloc::Global;
use std::process::Abort;
use zorder::Point;

// Put 8 at (3,5), move 7 to (9,1), and remove 8.
const BATCH: [Cell; 3] = [
    Cell::Put {
        id: 8,
        at: AT,
        moment: 11,
    },
    Cell::Move {
        id: 7,
        at: Point { x: 9, y: 1 },
        moment: 12,
    },
    Cell::Remove { id: 8 },
];

// Why a batch wasn't added, the cell at which the log is closed, and how many cells it has.
type Added = (Option<AppendAllFault>, Option<u64>, u64);

// Opens the log on a drive, and adds a batch to it.
fn add_on<D: LogDisk>(rt: &impl Abort, alloc: Global, disk: D, batch: &[Cell]) -> (Added, D) {
    let Ok(opened) = open(alloc, disk, 1, 16) else {
        rt.panic("the log isn't opened")
    };
    let mut log = opened.log;
    let fault = log.append_all(alloc, batch).err();
    (stands(&log, fault), log.give_back())
}

fn stands<D: LogDisk>(log: &SplitLog<D>, fault: Option<AppendAllFault>) -> Added {
    (fault, log.failed(), log.cells())
}

// The drive of the log of put 7 after that, if these calls fail, and the state of the log.
fn added(rt: &impl Abort, alloc: Global, batch: &[Cell], failing: &[Fail]) -> (Added, MemDisk) {
    add_on(rt, alloc, disk_of(rt, alloc, ONE_CELL, failing), batch)
}

// The log of put 7 and a batch.
fn with_all(rt: &impl Abort, alloc: Global, batch: &[Cell]) -> Vec<u8> {
    let mut cells = Vec::from_array(alloc, [PUT_7]).expect(rt, "no memory");
    cells.extend_from_slice(batch).expect(rt, "no memory");
    log_of(rt, alloc, cells.as_slice(), &[0])
}

// Images by their length and the value of each free byte.
const IMAGES: &[(u64, u8)] = &[
    (49, 0),
    (80, 1),
    (81, 0),
    (81, 1),
    (113, 1),
    (145, 0),
    (145, 1),
];

// Fails unless a crash at a moment leaves one of these logs in each of the images.
fn expect_logs(rt: &impl Abort, disk: &MemDisk, moment: u64, one: &[u8], other: &[u8]) {
    for (len, fill) in IMAGES {
        let image = disk.pick(moment, *len, &[*fill]).expect(rt, "no image");
        let left = image.as_slice();
        holds(
            rt,
            left.starts_with(one) || left.starts_with(other),
            "all or none",
        );
    }
}

// The same at each moment, for the log of put 7, and for that log with a batch.
fn expect_all_or_none(rt: &impl Abort, alloc: Global, disk: &MemDisk, batch: &[Cell]) {
    let all = with_all(rt, alloc, batch);
    for moment in 0..disk.moments() {
        expect_logs(rt, disk, moment, ONE_CELL, all.as_slice());
    }
}

// The opening's sync is the first moment, and a batch has four more, however many cells it has.
#[test]
fn a_batch_is_added_by_four_calls(rt: HostRuntime) {
    for (len, moments) in [(0_usize, 1), (1, 5), (3, 5)] {
        let batch = &BATCH[..len];
        let (added, disk) = added(&rt, rt.alloc(), batch, &[]);
        assert_same!(rt; (added, disk.moments()), ((None, None, 1 + len as u64), moments));
        let all = with_all(&rt, rt.alloc(), batch);
        same_bytes(&rt, disk.bytes(), all.as_slice());
        expect_all_or_none(&rt, rt.alloc(), &disk, batch);
        expect_logs(&rt, &disk, moments, all.as_slice(), all.as_slice());
    }
}

// Each call of an append, by its number among its kind, and the clock after it. The opening's sync is the first.
const CALLS: &[(DiskCall, u64, u64)] = &[
    (DiskCall::Write, 1, 2),
    (DiskCall::Sync, 2, 3),
    (DiskCall::Write, 2, 4),
    (DiskCall::Sync, 3, 5),
];

const LOST: Added = (Some(AppendAllFault::Disk { cell: 1 }), Some(1), 1);

// Fails unless a batch is lost if this call fails, and each image of a crash has all of it or none.
fn expect_lost(rt: &impl Abort, alloc: Global, failing: Fail, moments: u64, batch: &[Cell]) {
    let (added, disk) = added(rt, alloc, batch, &[failing]);
    assert_same!(rt; (added, disk.moments()), (LOST, moments));
    expect_all_or_none(rt, alloc, &disk, batch);
    let all = with_all(rt, alloc, batch);
    let other = if moments < 4 {
        ONE_CELL
    } else {
        all.as_slice()
    };
    expect_logs(rt, &disk, moments, ONE_CELL, other);
}

// If the first write or the first sync fails, no image has any of the cells.
#[test]
fn a_batch_that_is_lost_leaves_all_of_its_cells_or_none(rt: HostRuntime) {
    for (call, number, moments) in CALLS {
        let failing = Fail {
            call: *call,
            number: *number,
        };
        expect_lost(&rt, rt.alloc(), failing, *moments, &BATCH[..1]);
        expect_lost(&rt, rt.alloc(), failing, *moments, &BATCH);
    }
}

// Whether a journal on the log accepts a batch, how many cells it has then, and the drive.
fn keep_on<D: LogDisk>(rt: &impl Abort, alloc: Global, disk: D, batch: &[Cell]) -> (bool, u64, D) {
    let Ok(opened) = open(alloc, disk, 1, 16) else {
        rt.panic("the log isn't opened")
    };
    let mut journal = Journal::opened(opened.log, opened.start);
    let is_taken = takes_all(&mut journal, alloc, batch);
    let cells = journal.cells();
    match journal.give_back() {
        Some(disk) => (is_taken, cells, disk),
        None => rt.panic("the journal has no drive"),
    }
}

fn takes_all<D: LogDisk>(journal: &mut Journal<D>, alloc: Global, batch: &[Cell]) -> bool {
    if journal.closed().is_some() || journal.cells() > 15 || batch.len() > 15 {
        return false;
    }
    journal.append_all(alloc, batch).is_ok()
}

#[test]
fn a_journal_keeps_a_batch(rt: HostRuntime) {
    let disk = disk_of(&rt, rt.alloc(), ONE_CELL, &[]);
    let (is_taken, cells, disk) = keep_on(&rt, rt.alloc(), disk, &BATCH);
    assert_same!(rt; (is_taken, cells), (true, 4));
    let all = with_all(&rt, rt.alloc(), &BATCH);
    same_bytes(&rt, disk.bytes(), all.as_slice());
}
