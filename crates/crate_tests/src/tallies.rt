//! A tally along a drawn log, compared with a plain count of the objects inside each fence.
use crate::logs::fixtures::log_of;
use crate::memory::disk_of;
use cell_format::Cell;
use disk_trait::LogDisk;
use fence_watch::Tally;
use recovery::Walk;
use std::alloc::{AllocError, Global};
use std::process::Abort;
use watch_run::read_fences;
use zorder::{Point, Region};

// Where each object is, if it is there.
type Places = [Option<Point>; 8];

const NOBODY: Places = [None; 8];

const CELLS: u64 = 100;

// One fence contains another, and the third shares an edge with both.
const THREE_FENCES: &[u8] = b"fence,x,y,a,b\n5,0,0,7,7\n2,2,2,3,7\n9,7,7,11,11\n";

// A linear congruential generator (Knuth's MMIX).
fn drawn(seed: u64) -> u64 {
    seed.wrapping_mul(6_364_136_223_846_793_005)
        .wrapping_add(1_442_695_040_888_963_407)
}

fn drawn_point(draw: u64) -> Point {
    Point {
        x: (draw >> 32) as u32 % 12,
        y: (draw >> 36) as u32 % 12,
    }
}

// A cell that may follow if the object is here.
fn drawn_cell(id: u64, at: Option<Point>, draw: u64) -> Cell {
    let to = drawn_point(draw);
    if at.is_none() {
        return Cell::Put {
            id,
            at: to,
            moment: 0,
        };
    }
    if draw >> 59 & 3 == 0 {
        return Cell::Remove { id };
    }
    Cell::Move {
        id,
        at: to,
        moment: 0,
    }
}

// Moves the cell's object to its new position.
fn bring(places: &mut Places, cell: &Cell) {
    let (id, at) = match cell {
        Cell::Put { id, at, .. } | Cell::Move { id, at, .. } => (*id, Some(*at)),
        Cell::Remove { id } => (*id, None),
        _ => return,
    };
    if let Some(place) = places.get_mut(id as usize) {
        *place = at;
    }
}

fn drawn_cells(alloc: Global) -> Result<Vec<Cell>, AllocError> {
    let mut places = NOBODY;
    let mut cells = Vec::new(alloc);
    let mut seed = 5;
    for _ in 0..CELLS {
        seed = drawn(seed);
        let id = seed >> 61;
        let at = places.get(id as usize).copied().flatten();
        let cell = drawn_cell(id, at, seed);
        bring(&mut places, &cell);
        cells.push(cell)?;
    }
    Ok(cells)
}

fn number_inside(places: &Places, region: &Region) -> u64 {
    let mut number = 0_u64;
    for place in places {
        if place.is_some_and(|at| region.has(at)) {
            number = number.saturating_add(1);
        }
    }
    number
}

fn expect_numbers(rt: &impl Abort, tally: &Tally, places: &Places) {
    for count in tally.counts() {
        assert_same!(rt; count.inside, number_inside(places, &count.fence.region));
    }
}

// Goes along the cells of a walk, which are these.
fn go_along<D: LogDisk>(rt: &impl Abort, walk: &mut Walk<D>, cells: &[Cell], tally: &mut Tally) {
    let mut places = NOBODY;
    for cell in cells {
        let Some(walked) = walk.next().expect(rt, "the log is damaged") else {
            rt.panic("the log ends")
        };
        tally.step(&walked).expect(rt, "no step is made");
        bring(&mut places, cell);
        expect_numbers(rt, tally, &places);
    }
}

fn tally_on<D: LogDisk>(rt: &impl Abort, alloc: Global, cells: &[Cell], disk: D) -> usize {
    let fences = read_fences(alloc, THREE_FENCES).expect(rt, "the fences are at fault");
    let mut tally = Tally::new(alloc, &fences).expect(rt, "no memory");
    let Ok(mut walk) = Walk::start(alloc, disk, 1, 1_000) else {
        rt.panic("no walk begins")
    };
    go_along(rt, &mut walk, cells, &mut tally);
    tally.events().len()
}

#[test]
fn a_tally_counts_what_a_plain_count_finds(rt: HostRuntime) {
    let cells = drawn_cells(rt.alloc()).expect(&rt, "no memory");
    let log = log_of(&rt, rt.alloc(), &cells, &[0]);
    let disk = disk_of(&rt, rt.alloc(), log.as_slice(), &[]);
    let events = tally_on(&rt, rt.alloc(), &cells, disk);
    assert_is!(rt; events > 0);
}
