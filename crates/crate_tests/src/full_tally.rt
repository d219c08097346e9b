//! A tally that is full in the middle of a log, and goes on.
use crate::logs::fixtures::log_of;
use crate::memory::disk_of;
use cell_format::Cell;
use disk_trait::LogDisk;
use fence_watch::{AlongFault, Crossing, Event, Fence, Fences, Tally, WatchFault};
use recovery::Walk;
use std::alloc::{AllocError, Global};
use std::process::Abort;
use zorder::{Point, Region};

const FENCES: u64 = 256;

// So many crossings of all fences fill a tally.
const FULL: u64 = 16_384;

const CELLS: u64 = FULL + 3;

const INSIDE: Point = Point { x: 3, y: 5 };

const OUTSIDE: Point = Point { x: 9, y: 9 };

const BOX: Region = Region {
    lo: Point { x: 0, y: 0 },
    hi: Point { x: 5, y: 5 },
};

// One object goes in and out, at each cell through all fences.
fn cell(number: u64) -> Cell {
    let at = if number % 2 == 0 { INSIDE } else { OUTSIDE };
    if number == 0 {
        Cell::Put {
            id: 1,
            at,
            moment: 0,
        }
    } else {
        Cell::Move {
            id: 1,
            at,
            moment: 0,
        }
    }
}

fn cells(alloc: Global) -> Result<Vec<Cell>, AllocError> {
    let mut cells = Vec::new(alloc);
    for number in 0..CELLS {
        cells.push(cell(number))?;
    }
    Ok(cells)
}

fn fences(alloc: Global) -> Result<Vec<Fence>, AllocError> {
    let mut fences = Vec::new(alloc);
    for id in 0..FENCES {
        fences.push(Fence { id, region: BOX })?;
    }
    Ok(fences)
}

// The event of this number of the whole log.
fn event(number: u64) -> Event {
    let at = number / FENCES;
    let crossing = if at % 2 == 0 {
        Crossing::Enter
    } else {
        Crossing::Leave
    };
    Event {
        at,
        crossing,
        id: 1,
        fence: number % FENCES,
    }
}

// Whether the events from this number on are these, as far as each 1,021st shows: 256 fences and that number have no common divisor.
fn are_events(events: &[Event], first: u64) -> bool {
    let mut number = first;
    for events in events.chunks(1_021) {
        if events.first().copied() != Some(event(number)) {
            return false;
        }
        number = number.saturating_add(1_021);
    }
    true
}

fn expect_end(rt: &impl Abort, tally: &Tally) {
    assert_same!(rt; tally.events().len(), 768);
    assert_is!(rt; are_events(tally.events(), FULL * FENCES));
    for count in tally.counts() {
        assert_same!(rt; count.inside, 1);
    }
}

// Fills a tally along a log, takes its events, makes the step that it didn't make, and those of the cells that are left.
fn expect_whole<D: LogDisk>(rt: &impl Abort, alloc: Global, fences: &Fences, disk: D) {
    let mut tally = Tally::new(alloc, fences).expect(rt, "no memory");
    let Ok(mut walk) = Walk::start(alloc, disk, 1, CELLS) else {
        rt.panic("no walk begins")
    };
    let Err(AlongFault::Watch { fault, walked }) = tally.along(&mut walk) else {
        rt.panic("the tally isn't full")
    };
    assert_same!(rt; (fault, walked.at), (WatchFault::TooMany, FULL));
    let taken = tally.take_events(alloc);
    assert_same!(rt; taken.len(), 4_194_304);
    assert_is!(rt; are_events(taken.as_slice(), 0));
    tally.step(&walked).expect(rt, "no step is made");
    for _left in 0..2 {
        let next = walk.next().expect(rt, "the log is at fault");
        let walked = next.expect(rt, "the log ends");
        tally.step(&walked).expect(rt, "no step is made");
    }
    assert_is!(rt; matches!(walk.next(), Ok(None)));
    expect_end(rt, &tally);
}

#[test]
fn a_full_tally_goes_on_where_it_stopped(rt: HostRuntime) {
    let fences = fences(rt.alloc()).expect(&rt, "no memory");
    let fences = Fences::of(rt.alloc(), fences.as_slice()).expect(&rt, "the fences are at fault");
    let cells = cells(rt.alloc()).expect(&rt, "no memory");
    let log = log_of(&rt, rt.alloc(), cells.as_slice(), &[0]);
    let disk = disk_of(&rt, rt.alloc(), log.as_slice(), &[]);
    expect_whole(&rt, rt.alloc(), &fences, disk);
}
