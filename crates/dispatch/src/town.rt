//! The taxis, the calls of each driver, and their right answers.
ghost use Rattle.pisrakun.specs.Answer.{IsValid};

use pisrakun::{Answer, Op, Placed, Point, Stamped};

/// The dispatcher's session. The sessions with lesser numbers are drivers.
pub const DISPATCHER: u8 = 4;

/// Where the dispatcher wants a taxi.
pub const STATION: Point = Point {
    x: 2_200_000_000,
    y: 2_200_000_000,
};

/// The free taxi that waits in the next street.
pub const WAITING: Placed = Placed {
    id: 41,
    at: Point {
        x: 2_200_000_000,
        y: 2_200_000_100,
    },
};

/// The taxi at the station. It has a passenger.
pub const TAKEN: Placed = Placed {
    id: 40,
    at: STATION,
};

// The coordinates at which the drivers' quarters begin.
const LOW: u32 = 1_000_000_000;

const HIGH: u32 = 3_300_000_000;

// How many taxis a driver has.
const TAXIS: u32 = 4;

// The round in which a driver sends an old position again in place of a new one.
const LATE: u32 = 25;

// The round of that old position. It was sent from a tunnel, and arrives after the taxi has left it.
const TUNNEL: u32 = 12;

// The corner of a driver's quarter.
fn corner(session: u8) -> Point {
    match session {
        1 => Point { x: LOW, y: LOW },
        2 => Point { x: HIGH, y: LOW },
        _ => Point { x: HIGH, y: HIGH },
    }
}

// Where a driver's taxi is in this round. The moment of a position is its round.
fn place(session: u8, taxi: u32, round: u32) -> Stamped {
    let corner = corner(session);
    Stamped {
        at: Point {
            x: corner.x.saturating_add(round),
            y: corner.y.saturating_add(taxi),
        },
        moment: u64::from(round),
    }
}

/// Whether a taxi is free. The store doesn't know, since its objects have only ids, points and moments.
pub fn is_free(id: u64) -> bool {
    id != TAKEN.id
}

/// The operation of a driver's row. A driver puts each taxi, then moves each in turn, and at last sends an old position
/// of the first one again.
pub fn op_of(session: u8, row: u32) -> Op
    ensures { IsValid result }
{
    let (taxi, round) = (row % TAXIS, row / TAXIS);
    let id = u64::from(session) * 10 + u64::from(taxi);
    let sent = if round == LATE { TUNNEL } else { round };
    let Stamped { at, moment } = place(session, taxi, sent);
    if round == 0 {
        Op::Put { id, at, moment }
    } else {
        Op::Move { id, at, moment }
    }
}

/// Whether the answer to a row is the right one, whatever the other sessions do. A late position is stale. Then the
/// taxi stays at its last position, and the answer has that position.
pub fn is_good(session: u8, row: u32, answer: &Answer) -> bool {
    let (taxi, round) = (row % TAXIS, row / TAXIS);
    match answer {
        Answer::Done => round == 0,
        Answer::Moved(from) => {
            0 < round && round < LATE && *from == place(session, taxi, round - 1)
        }
        Answer::Stale(kept) => round == LATE && *kept == place(session, taxi, LATE - 1),
        _ => false,
    }
}
