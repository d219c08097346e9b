//! The calls of each session, and their right answers.
ghost use Rattle.pisrakun.specs.Answer.{IsValid};

use pisrakun::{Answer, Op, Point};

/// How many objects each session has.
pub const OBJECTS: u32 = 64;

// The number of a session's object among all.
fn number(session: u8, object: u32) -> u32 {
    u32::from(session)
        .wrapping_mul(OBJECTS)
        .wrapping_add(object)
}

// Where an object is in this round: anywhere at first, and a little farther in each round.
fn place(number: u32, round: u32) -> Point {
    let farther = round.wrapping_mul(65_536);
    Point {
        x: number.wrapping_mul(2_654_435_769).wrapping_add(farther),
        y: number.wrapping_mul(1_640_531_527),
    }
}

/// The put of an object, by its number among all.
pub fn put_of(number: u32) -> Op
    ensures { IsValid result }
{
    Op::Put {
        id: u64::from(number),
        at: place(number, 0),
        moment: 0,
    }
}

/// The operation of a session's row: three moves, then a query for the nearest eight.
pub fn op_of(session: u8, row: u32) -> Op
    ensures { IsValid result }
{
    let (number, round) = (number(session, row % OBJECTS), row / OBJECTS + 1);
    let at = place(number, round);
    if row % 4 == 3 {
        Op::Near { at, k: 8 }
    } else {
        Op::Move {
            id: u64::from(number),
            at,
            moment: u64::from(round),
        }
    }
}

/// Whether the answer to a row is the right one.
pub fn is_good(row: u32, answer: &Answer) -> bool {
    match answer {
        Answer::Moved(_) => row % 4 != 3,
        Answer::Found(found) => row % 4 == 3 && found.as_slice().len() == 8,
        _ => false,
    }
}
