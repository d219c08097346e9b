//! Records that wait, and what a crash leaves when they are added together.
use crate::checks::{holds, same_bytes};
use crate::logs::fixtures::{AT, ONE_CELL, PUT_7, log_of};
use crate::memory::disk_of;
use cell_format::Cell;
use disk_mem::{DiskCall, Fail, MemDisk};
use disk_trait::LogDisk;
use kept_log::{AppendLost, Journal};
use recovery::open;
use split_log::{AppendFault, MOST_WAITING, Waiting};
use std::alloc::Global;
use std::process::Abort;
use zorder::Point;

const PUT_8: Cell = Cell::Put {
    id: 8,
    at: AT,
    moment: 11,
};

const MOVE_7: Cell = Cell::Move {
    id: 7,
    at: Point { x: 9, y: 1 },
    moment: 12,
};

const REMOVE_8: Cell = Cell::Remove { id: 8 };

const WAITING: [Cell; 3] = [PUT_8, MOVE_7, REMOVE_8];

// The cells after the first one.
const OTHERS: [Cell; 2] = [MOVE_7, REMOVE_8];

// The log of put 7 and the first `count` of the cells.
fn with_first(rt: &impl Abort, alloc: Global, count: usize) -> Vec<u8> {
    let mut cells = Vec::from_array(alloc, [PUT_7]).expect(rt, "no memory");
    for cell in WAITING.iter().take(count) {
        cells.push(*cell).expect(rt, "no memory");
    }
    log_of(rt, alloc, cells.as_slice(), &[0])
}

fn waiting_of(rt: &impl Abort, alloc: Global, cells: &[Cell]) -> Waiting {
    let mut waiting = Waiting::new(alloc).expect(rt, "no memory");
    for cell in cells {
        if waiting.len() <= MOST_WAITING {
            waiting.push(cell);
        }
    }
    waiting
}

// Opens the log on a drive and adds what waits. Returns why it wasn't added, how many cells there are, and the drive.
fn add_on<D: LogDisk>(
    rt: &impl Abort,
    alloc: Global,
    disk: D,
    waiting: &Waiting,
) -> (Option<AppendFault>, u64, D) {
    let Ok(opened) = open(alloc, disk, 1, 16) else {
        rt.panic("the log isn't opened")
    };
    let mut log = opened.log;
    let fault = log.append_waiting(waiting).err();
    (fault, log.cells(), log.give_back())
}

// The opening's sync is the first moment, and an append has four more, however many cells waited.
#[test]
fn cells_that_wait_are_added_by_four_calls(rt: HostRuntime) {
    for (len, moments) in [(0_usize, 1), (1, 5), (3, 5)] {
        let waiting = waiting_of(&rt, rt.alloc(), &WAITING[..len]);
        let disk = disk_of(&rt, rt.alloc(), ONE_CELL, &[]);
        let (fault, cells, disk) = add_on(&rt, rt.alloc(), disk, &waiting);
        assert_same!(rt; (fault, cells, disk.moments()), (None, 1 + len as u64, moments));
        same_bytes(
            &rt,
            disk.bytes(),
            with_first(&rt, rt.alloc(), len).as_slice(),
        );
    }
}

// The cells that wait, and the others after them.
fn with_others(rt: &impl Abort, alloc: Global, waiting: &Waiting) -> Waiting {
    if waiting.len() > 15 {
        rt.panic("too many")
    }
    waiting.with(alloc, &OTHERS).expect(rt, "no memory")
}

#[test]
fn cells_after_those_that_wait_and_the_first_of_them_are_added_in_order(rt: HostRuntime) {
    let first = waiting_of(&rt, rt.alloc(), &WAITING[..1]);
    let mut all = with_others(&rt, rt.alloc(), &first);
    for len in [3_usize, 2] {
        if len <= all.len() {
            all.truncate(len);
        }
        let disk = disk_of(&rt, rt.alloc(), ONE_CELL, &[]);
        let (_, _, disk) = add_on(&rt, rt.alloc(), disk, &all);
        same_bytes(
            &rt,
            disk.bytes(),
            with_first(&rt, rt.alloc(), len).as_slice(),
        );
    }
}

fn waiting_journal<D: LogDisk>(rt: &impl Abort, alloc: Global, disk: D) -> Journal<D> {
    let Ok(opened) = open(alloc, disk, 1, 16) else {
        rt.panic("the log isn't opened")
    };
    let journal = Journal::opened(opened.log, opened.start);
    let Ok(journal) = journal.at_sync(alloc) else {
        rt.panic("no memory")
    };
    journal
}

// Adds the first cell, and the others as a batch.
fn take_all<D: LogDisk>(rt: &impl Abort, alloc: Global, journal: &mut Journal<D>) {
    if journal.closed().is_some() || journal.cells() > 15 {
        rt.panic("no room")
    }
    assert_is!(rt; journal.append(&PUT_8).is_ok());
    if journal.closed().is_some() || journal.cells() > 15 {
        rt.panic("no room")
    }
    assert_is!(rt; journal.append_all(alloc, &OTHERS).is_ok());
}

fn sync<D: LogDisk>(rt: &impl Abort, journal: &mut Journal<D>) -> Option<AppendLost> {
    if journal.closed().is_some() {
        rt.panic("the log is closed")
    }
    journal.sync().err()
}

// All cells, those in the file, and those that wait.
fn counts<D: LogDisk>(journal: &Journal<D>) -> (u64, u64, usize) {
    (journal.cells(), journal.written(), journal.waiting())
}

// A journal that takes the cells, is synced this many times, and gives back its drive. Its counts before and after the
// syncs, and why the last one failed.
fn synced_on<D: LogDisk>(
    rt: &impl Abort,
    alloc: Global,
    disk: D,
    syncs: u64,
) -> ((u64, u64, usize), (u64, u64, usize), Option<AppendLost>, D) {
    let mut journal = waiting_journal(rt, alloc, disk);
    take_all(rt, alloc, &mut journal);
    let before = counts(&journal);
    let mut lost = None;
    for _ in 0..syncs {
        lost = sync(rt, &mut journal);
    }
    let after = counts(&journal);
    match journal.give_back() {
        Some(disk) => (before, after, lost, disk),
        None => rt.panic("the journal has no drive"),
    }
}

// Without a sync no call is made. The first one makes four calls, and a second one none.
#[test]
fn a_journal_at_sync_writes_nothing_before_its_sync(rt: HostRuntime) {
    for (syncs, cells, counted, moments) in [
        (0, 0_usize, (4, 1, 3), 1),
        (1, 3, (4, 4, 0), 5),
        (2, 3, (4, 4, 0), 5),
    ] {
        let disk = disk_of(&rt, rt.alloc(), ONE_CELL, &[]);
        let (before, after, lost, disk) = synced_on(&rt, rt.alloc(), disk, syncs);
        assert_same!(rt; (before, after, lost, disk.moments()), ((4, 1, 3), counted, None, moments));
        same_bytes(
            &rt,
            disk.bytes(),
            with_first(&rt, rt.alloc(), cells).as_slice(),
        );
    }
}

// Images by their length and the value of each free byte.
const IMAGES: &[(u64, u8)] = &[(49, 0), (80, 1), (81, 1), (113, 1), (145, 0), (145, 1)];

// Fails unless a crash at a moment leaves one of these logs in each of the images.
fn expect_logs(rt: &impl Abort, disk: &MemDisk, moment: u64, one: &[u8], other: &[u8]) {
    for (len, fill) in IMAGES {
        let image = disk.pick(moment, *len, &[*fill]).expect(rt, "no image");
        let left = image.as_slice();
        holds(
            rt,
            left.starts_with(one) || left.starts_with(other),
            "all or none",
        );
    }
}

// Each call of a sync, by its number among its kind, and the clock after it. The opening's sync is the first.
const CALLS: &[(DiskCall, u64, u64)] = &[
    (DiskCall::Write, 1, 2),
    (DiskCall::Sync, 2, 3),
    (DiskCall::Write, 2, 4),
    (DiskCall::Sync, 3, 5),
];

// The fault names the first cell that waited. If the first write or the first sync fails, no image has any of them.
#[test]
fn a_sync_that_is_lost_leaves_all_that_waited_or_none(rt: HostRuntime) {
    let all = with_first(&rt, rt.alloc(), 3);
    for (call, number, moments) in CALLS {
        let failing = Fail {
            call: *call,
            number: *number,
        };
        let disk = disk_of(&rt, rt.alloc(), ONE_CELL, &[failing]);
        let (_, after, lost, disk) = synced_on(&rt, rt.alloc(), disk, 1);
        assert_same!(rt; (after, lost, disk.moments()), ((4, 1, 3), Some(AppendLost { cell: 1 }), *moments));
        for moment in 0..disk.moments() {
            expect_logs(&rt, &disk, moment, ONE_CELL, all.as_slice());
        }
        let other = if *moments < 4 {
            ONE_CELL
        } else {
            all.as_slice()
        };
        expect_logs(&rt, &disk, *moments, ONE_CELL, other);
    }
}
