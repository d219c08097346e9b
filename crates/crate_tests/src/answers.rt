//! Answers as plain data, for tables of them.
use plain_list::{Answer, PlacedList, Stamped};
use std::alloc::{AllocError, Global};
use zorder::Placed;

/// An answer, with the points of its list.
#[derive(Clone, Copy)]
pub enum Told {
    Done,
    Present(Stamped),
    Full,
    Moved(Stamped),
    Stale(Stamped),
    Gone(Stamped),
    At(Stamped),
    Absent,
    Found(&'static [Placed]),
    Many(u64),
}

/// The same as an answer.
pub fn answer_of(alloc: Global, told: Told) -> Result<Answer, AllocError> {
    match told {
        Told::Done => Ok(Answer::Done),
        Told::Present(kept) => Ok(Answer::Present(kept)),
        Told::Full => Ok(Answer::Full),
        Told::Moved(kept) => Ok(Answer::Moved(kept)),
        Told::Stale(kept) => Ok(Answer::Stale(kept)),
        Told::Gone(kept) => Ok(Answer::Gone(kept)),
        Told::At(kept) => Ok(Answer::At(kept)),
        Told::Absent => Ok(Answer::Absent),
        Told::Found(points) => found(alloc, points),
        Told::Many(count) => Ok(Answer::Many(count)),
    }
}

fn found(alloc: Global, points: &[Placed]) -> Result<Answer, AllocError> {
    Ok(Answer::Found(PlacedList::from_vec(points.to_vec(alloc)?)))
}
