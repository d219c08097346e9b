//! Objects with their squared distance to a point.
ghost use Rattle.std.specs.Prelude.{◌≡◌};
ghost use Rattle.knn_query.specs.Candidates.{object_of, IsMeasured};

use prefix_names::dist;
use zorder::{Placed, Point};

/// An object and its squared distance, ordered as in the answer: by distance, and at the same distance by id.
#[derive(Clone, Copy, Drop)]
#[derive_where(PartialEq, Eq, PartialOrd, Ord)]
pub struct Candidate {
    /// The squared distance.
    pub distance: u128,
    pub id: u64,
    #[derive_where(skip)]
    pub at: Point,
}

impl Candidate {
    /// An object with its squared distance to a point.
    pub fn new(m: Placed, from: Point) -> Candidate
        ensures object { object_of result ≡ m }
        ensures measured { IsMeasured from result }
    {
        Candidate {
            distance: dist(m.at, from),
            id: m.id,
            at: m.at,
        }
    }

    /// Returns the squared distance as one word, at most 2^64 - 1. If two of these words differ, they have the order of
    /// the answer.
    pub(crate) fn roughly(&self) -> u64 {
        u64::try_from(self.distance).unwrap_or(u64::MAX)
    }

    /// The object without its distance.
    pub fn placed(&self) -> Placed
        ensures { result ≡ object_of self.now }
    {
        Placed {
            id: self.id,
            at: self.at,
        }
    }
}
