//! Objects that were found and not returned yet. A heap returns the nearest of them first.
ghost use Rattle.std.specs.Prelude.{◌≡◌};
ghost use Rattle.browse_query.specs.Found.{found_of, object_of};

use bucket_versions::Row;
use prefix_names::dist;
use zorder::{Placed, Point, point};

/// An object's squared distance, its id, and the key of its point. The order is the one in which a browse returns
/// objects: by distance, and at the same distance by id.
#[derive(Clone, Copy, Drop, PartialEq, Eq, PartialOrd, Ord)]
pub(crate) struct Found {
    pub(crate) distance: u128,
    pub(crate) id: u64,
    pub(crate) key: u64,
}

impl Found {
    /// The object of a row, with its squared distance from a point.
    #[inline(always)]
    pub(crate) fn new(row: &Row, from: Point) -> Found
        ensures { result ≡ found_of from row.now }
    {
        Found {
            distance: dist(point(row.key), from),
            id: row.id,
            key: row.key,
        }
    }

    /// The object without its distance.
    pub(crate) fn placed(&self) -> Placed
        ensures { result ≡ object_of self.now }
    {
        Placed {
            id: self.id,
            at: point(self.key),
        }
    }
}
