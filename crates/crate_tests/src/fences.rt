//! Fences along a worked log: which objects cross them and which are inside.
ghost use Rattle.std.specs.Prelude.{List};
ghost use Rattle.cell_format.specs.declared.cell.Cell.{Cell};
ghost use Rattle.recovery.specs.Walks.{ComesTo};
ghost use Rattle.fence_watch.specs.declared.fences.Fence.{Fence};
ghost use Rattle.fence_watch.specs.Watches.{FollowsCells};

use crate::logs::fixtures::log_of;
use crate::memory::disk_of;
use cell_format::Cell;
use disk_trait::LogDisk;
use fence_watch::{Crossing, Event, Watch};
use recovery::Walk;
use std::alloc::Global;
use std::process::Abort;
use watch_run::read_fences;
use zorder::{Name, Point};

// No log here has as many cells.
const MANY: u32 = 9;

// Leads a watch along the cells of a walk.
fn go_along<D: LogDisk>(rt: &impl Abort, walk: &mut Walk<D>, watch: &mut Watch)
    requires { (cells : List Cell) × (fences : List Fence)
        × ComesTo 1 9 cells (D.drive walk.old.disk) walk.old × FollowsCells cells fences watch.old }
{
    for _ in 0..MANY {
        match walk.next().expect(rt, "the log is damaged") {
            Some(walked) => watch.step(&walked).expect(rt, "no step is made"),
            None => return,
        }
    }
}

fn watch_on<D: LogDisk>(rt: &impl Abort, alloc: Global, fences: &[u8], disk: D) -> Watch {
    let fences = read_fences(alloc, fences).expect(rt, "the fences are at fault");
    let mut watch = Watch::new(alloc, fences).expect(rt, "no memory");
    let Ok(mut walk) = Walk::start(alloc, disk, 1, 9) else {
        rt.panic("no walk begins")
    };
    go_along(rt, &mut walk, &mut watch);
    watch
}

// Fence 2 is from (4,4) to (9,9), and fence 1 from (0,0) to (5,5).
const TWO_FENCES: &[u8] = b"fence,x,y,a,b\n2,4,4,9,9\n1,0,0,5,5\n";

fn put(id: u64, x: u32, y: u32) -> Cell {
    let at = Point { x, y };
    Cell::Put { id, at, moment: 0 }
}

// The put of 9 is at a corner of both fences.
fn five_cells() -> [Cell; 5] {
    let begin = Cell::Begin {
        number: 1,
        name: Name::whole(),
    };
    let step = Cell::Move {
        id: 7,
        at: Point { x: 8, y: 8 },
        moment: 0,
    };
    [
        put(7, 3, 5),
        begin,
        put(9, 5, 5),
        step,
        Cell::Remove { id: 7 },
    ]
}

macro_rules! event {
    ($at:expr, $crossing:ident, $id:expr, $fence:expr) => {
        Event {
            at: $at,
            crossing: Crossing::$crossing,
            id: $id,
            fence: $fence,
        }
    };
}

const EVENTS: &[Event] = &[
    event!(0, Enter, 7, 1),
    event!(2, Enter, 9, 2),
    event!(2, Enter, 9, 1),
    event!(3, Enter, 7, 2),
    event!(3, Leave, 7, 1),
    event!(4, Leave, 7, 2),
];

fn are_inside(watch: &Watch, fence: u64, ids: &[u64]) -> bool {
    match watch.inside(fence) {
        Some(inside) => inside == ids,
        None => false,
    }
}

// Fails unless these cells lead to these events, and leave these ids in fence 2 and these in fence 1.
fn expect_inside(
    rt: &impl Abort,
    alloc: Global,
    cells: &[Cell],
    events: &[Event],
    second: &[u64],
    first: &[u64],
) {
    let log = log_of(rt, alloc, cells, &[0]);
    let watch = watch_on(
        rt,
        alloc,
        TWO_FENCES,
        disk_of(rt, alloc, log.as_slice(), &[]),
    );
    assert_is!(rt; watch.events() == events);
    assert_is!(rt; are_inside(&watch, 2, second));
    assert_is!(rt; are_inside(&watch, 1, first));
    assert_is!(rt; watch.inside(3).is_none());
}

fn watches_five(rt: &impl Abort, alloc: Global) {
    let cells = five_cells();
    expect_inside(rt, alloc, &[], &[], &[], &[]);
    expect_inside(rt, alloc, &cells[..4], &EVENTS[..5], &[7, 9], &[9]);
    expect_inside(rt, alloc, &cells, EVENTS, &[9], &[9]);
}

#[test]
fn a_watch_tells_who_crosses_fences_and_who_is_inside(rt: HostRuntime) {
    watches_five(&rt, rt.alloc());
}
