//! Walks over the cells of logs: what each returns for a cell, where it ends, and what it has found then.
use crate::logs::fixtures::{AT, Found, NOTHING, PUT_7, log_of, said};
use crate::memory::{EMPTY_LOG, disk_of};
use cell_format::{Cause, Cell};
use disk_mem::{DiskCall, Fail};
use disk_trait::LogDisk;
use plain_list::Member;
use recovery::{OpenFault, OpenRefused, Walk, WalkEnd, Walked};
use std::alloc::Global;
use std::process::Abort;
use zorder::{Name, Point};

// No log here has as many cells.
const MANY: u32 = 5_000;

// What a walk returned: each cell, the fault that ended it, if it didn't come to the end, and what the cells record.
#[derive(Drop)]
struct Told {
    walked: Vec<Walked>,
    fault: Option<OpenFault>,
    found: Found,
}

// Goes over the cells until there are no more, or until a fault.
fn go_on<D: LogDisk>(
    rt: &impl Abort,
    walk: &mut Walk<D>,
    walked: &mut Vec<Walked>,
) -> Option<OpenFault> {
    for _ in 0..MANY {
        match walk.next() {
            Ok(Some(one)) => walked.push(one).expect(rt, "no memory"),
            Ok(None) => return None,
            Err(fault) => return Some(fault),
        }
    }
    rt.panic("the walk doesn't end")
}

fn walk_on<D: LogDisk>(
    rt: &impl Abort,
    alloc: Global,
    disk: D,
    most: u64,
) -> Result<Told, OpenFault> {
    match Walk::start(alloc, disk, 1, most) {
        Ok(walk) => Ok(told_by(rt, alloc, walk)),
        Err(OpenRefused { cause, .. }) => Err(cause),
    }
}

fn told_by<D: LogDisk>(rt: &impl Abort, alloc: Global, walk: Walk<D>) -> Told {
    let mut walk = walk;
    let mut walked = Vec::new(alloc);
    let fault = go_on(rt, &mut walk, &mut walked);
    let WalkEnd { seen, .. } = walk.finish();
    Told {
        walked,
        fault,
        found: said(&seen),
    }
}

fn walk_over(rt: &impl Abort, alloc: Global, bytes: &[u8], failing: &[Fail], most: u64) -> Told {
    let disk = disk_of(rt, alloc, bytes, failing);
    walk_on(rt, alloc, disk, most).expect(rt, "the walk isn't begun")
}

const BESIDE: Point = Point { x: 4, y: 5 };

const MOVE_7: Cell = Cell::Move {
    id: 7,
    at: BESIDE,
    moment: 11,
};

const PUT_8: Cell = Cell::Put {
    id: 8,
    at: AT,
    moment: 0,
};

const DROP_7: Cell = Cell::Remove { id: 7 };

// A cell as a walk returns it.
macro_rules! walked {
    ($at:expr, $cell:expr, $before:expr, $after:expr) => {
        Walked {
            at: $at,
            cell: $cell,
            before: $before,
            after: $after,
        }
    };
}

fn begin_1() -> Cell {
    Cell::Begin {
        number: 1,
        name: Name::whole(),
    }
}

fn five_cells() -> [Cell; 5] {
    [PUT_7, begin_1(), MOVE_7, PUT_8, DROP_7]
}

fn five_walked() -> [Walked; 5] {
    [
        walked!(0, PUT_7, None, Some(AT)),
        walked!(1, begin_1(), None, None),
        walked!(2, MOVE_7, Some(AT), Some(BESIDE)),
        walked!(3, PUT_8, None, Some(AT)),
        walked!(4, DROP_7, Some(BESIDE), None),
    ]
}

// What so many cells leave of an object.
macro_rules! one_object {
    ($cells:expr, $begun:expr, $id:expr, $at:expr, $moment:expr) => {
        (
            [2, $cells, $begun, $begun],
            (1, true),
            (
                1,
                Some(Member {
                    id: $id,
                    at: $at,
                    moment: $moment,
                }),
            ),
        )
    };
}

const BEHIND_FIVE: Found = one_object!(5, 1, 8, AT, 0);

fn expect_told(
    rt: &impl Abort,
    told: &Told,
    walked: &[Walked],
    fault: Option<OpenFault>,
    found: Found,
) {
    assert_same!(rt; told.walked.as_slice(), walked);
    assert_same!(rt; told.fault, fault);
    assert_same!(rt; told.found, found);
}

fn goes_over_five(rt: &impl Abort, alloc: Global) {
    let log = log_of(rt, alloc, &five_cells(), &[0]);
    let told = walk_over(rt, alloc, log.as_slice(), &[], 5);
    expect_told(rt, &told, &five_walked(), None, BEHIND_FIVE);
    let told = walk_over(rt, alloc, EMPTY_LOG, &[], 0);
    expect_told(rt, &told, &[], None, NOTHING);
}

#[test]
fn a_walk_tells_where_each_cell_brings_its_object(rt: HostRuntime) {
    goes_over_five(&rt, rt.alloc());
}

const BAD_KIND: &[u8] = &[
    1, 9, 0, 0, 0, 0, 0, 0, 0, 0, 0, 0, 0, 0, 0, 0, 0, 0, 0, 0, 0, 0, 0, 0, 0, 0, 0, 0, 0, 0, 0, 0,
    0,
];

const BEHIND_PUT: Found = one_object!(1, 0, 7, AT, 10);

macro_rules! second {
    ($cause:expr) => {
        OpenFault::Damaged {
            cell: 1,
            cause: $cause,
        }
    };
}

// The fault after a put of 7 and maybe one more cell.
fn expect_fault(
    rt: &impl Abort,
    alloc: Global,
    cell: Option<Cell>,
    tail: &[u8],
    most: u64,
    fault: OpenFault,
) {
    let mut cells = Vec::from_slice(alloc, &[PUT_7]).expect(rt, "no memory");
    cells.extend(cell).expect(rt, "no memory");
    let log = log_of(rt, alloc, cells.as_slice(), tail);
    let told = walk_over(rt, alloc, log.as_slice(), &[], most);
    expect_told(
        rt,
        &told,
        &[walked!(0, PUT_7, None, Some(AT))],
        Some(fault),
        BEHIND_PUT,
    );
}

fn ends_at_each_fault(rt: &impl Abort, alloc: Global) {
    expect_fault(rt, alloc, None, BAD_KIND, 9, second!(Cause::Kind));
    expect_fault(rt, alloc, None, &[1; 20], 9, second!(Cause::ShortCell));
    expect_fault(rt, alloc, Some(PUT_7), &[0], 9, second!(Cause::Impossible));
    expect_fault(
        rt,
        alloc,
        Some(DROP_7),
        &[0],
        1,
        OpenFault::TooLong { most: 1 },
    );
}

#[test]
fn a_walk_that_ends_at_a_fault_tells_of_the_cells_before_it(rt: HostRuntime) {
    ends_at_each_fault(&rt, rt.alloc());
}

// The put, and moves with rising moments. Those with even numbers go back.
fn long_log(rt: &impl Abort, alloc: Global, cells: u64) -> Vec<u8> {
    let mut all = Vec::from_slice(alloc, &[PUT_7]).expect(rt, "no memory");
    for number in 1..cells {
        let at = if number % 2 == 0 { AT } else { BESIDE };
        let moment = number.saturating_add(10);
        let step = Cell::Move { id: 7, at, moment };
        all.push(step).expect(rt, "no memory");
    }
    log_of(rt, alloc, all.as_slice(), &[0])
}

// Where the last of so many cells moves the object, and from where.
fn expect_last(rt: &impl Abort, alloc: Global, cells: u64, before: Point, after: Point) {
    let log = long_log(rt, alloc, cells);
    let told = walk_over(rt, alloc, log.as_slice(), &[], cells);
    assert_same!(rt; told.walked.len() as u64, cells);
    let at = cells.saturating_sub(1);
    let moment = at.saturating_add(10);
    let step = Cell::Move {
        id: 7,
        at: after,
        moment,
    };
    let last = walked!(at, step, Some(before), Some(after));
    assert_same!(rt; told.walked.last(), Some(&last));
    assert_same!(rt; told.fault, None);
    assert_same!(rt; told.found, one_object!(cells, 0, 7, after, moment));
}

// A log is read in pieces of 2,048 cells.
fn reads_pieces(rt: &impl Abort, alloc: Global) {
    expect_last(rt, alloc, 2_048, AT, BESIDE);
    expect_last(rt, alloc, 2_049, BESIDE, AT);
    expect_last(rt, alloc, 4_096, AT, BESIDE);
}

// The first read is that of the head, and the second one that of the first piece.
fn stops_where_a_read_fails(rt: &impl Abort, alloc: Global) {
    let log = long_log(rt, alloc, 2_049);
    let failing = Fail {
        call: DiskCall::Read,
        number: 3,
    };
    let told = walk_over(rt, alloc, log.as_slice(), &[failing], 2_049);
    assert_same!(rt; told.fault, Some(OpenFault::Disk));
    let count = told.walked.len() as u64;
    assert_is!(rt; count > 0 && count < 2_049);
    let ([_, cells, _, _], _, _) = told.found;
    assert_same!(rt; cells, count);
}

#[test]
fn a_walk_goes_over_pieces_and_stops_where_a_read_fails(rt: HostRuntime) {
    reads_pieces(&rt, rt.alloc());
    stops_where_a_read_fails(&rt, rt.alloc());
}

// Bytes over which no walk begins, and why.
const NOT_BEGUN: &[(&[u8], OpenFault)] = &[
    (b"MDLOCLOG\x02\x01\0\0\0\0\0\0", OpenFault::NotLog),
    (
        b"MDLOCLOG\x02\x02\0\0\0\0\0\0\0",
        OpenFault::OldLog {
            version: 2,
            width: 2,
        },
    ),
    (
        b"MDLOCLOG\x03\x01\0\0\0\0\0\0\0",
        OpenFault::OldLog {
            version: 3,
            width: 1,
        },
    ),
];

fn is_not_begun(rt: &impl Abort, alloc: Global, bytes: &[u8], failing: &[Fail], fault: OpenFault) {
    let disk = disk_of(rt, alloc, bytes, failing);
    let told = walk_on(rt, alloc, disk, 9);
    assert_same!(rt; told.err(), Some(fault));
}

const LENGTH: &[Fail] = &[Fail {
    call: DiskCall::Len,
    number: 1,
}];

#[test]
fn no_walk_begins_over_another_head(rt: HostRuntime) {
    for (bytes, fault) in NOT_BEGUN {
        is_not_begun(&rt, rt.alloc(), bytes, &[], *fault);
    }
    is_not_begun(&rt, rt.alloc(), EMPTY_LOG, LENGTH, OpenFault::Disk);
}
