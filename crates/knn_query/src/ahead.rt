//! The subtrees that a search has not opened yet. A heap returns the nearest of them first.
ghost use Rattle.std.specs.Prelude.{◌≡◌, ◌<◌, ◌∷◌, ◌++◌, [], false, true, length, MatchOption};
ghost use Rattle.std.specs.BinaryHeap.{heap_items, IsHeap};
ghost use Rattle.prefix_names.specs.Regions.{region_of};
ghost use Rattle.knn_query.specs.Ahead.{IsAhead};
ghost use Rattle.knn_query.specs.Waiting.{waiting_cmp, IsNearest, IsOrder};

use prefix_names::{halves, least, region};
use std::cmp::Reverse;
use std::collections::BinaryHeap;
use zorder::{Name, Point, Region, child};

/// A subtree that isn't opened yet: its name, its region, and the least squared distance of a point in the region. In
/// the order of the heap, the nearer subtree is the greater one.
#[derive(Clone, Copy, Drop)]
#[derive_where(PartialEq, Eq, PartialOrd, Ord)]
pub struct Ahead {
    /// The least squared distance of a point in the region.
    pub least: Reverse<u128>,
    #[derive_where(skip)]
    pub name: Name,
    #[derive_where(skip)]
    pub region: Region,
}

impl Ahead {
    /// The subtree of a name, as seen from a point.
    pub fn at(name: Name, from: Point) -> Ahead
        ensures name { result.name ≡ name }
        ensures ahead { IsAhead from result }
    {
        Ahead::new(name, region(&name), from)
    }

    /// Returns the halves for the next bit 0 and 1.
    pub fn halves(&self, from: Point) -> (Ahead, Ahead)
        requires room { length self.now.name < 64 }
        requires ahead { IsAhead from self.now }
        ensures names { (result.0.name ≡ self.now.name ++ false ∷ []) × (result.1.name ≡ self.now.name ++ true ∷ []) }
        ensures ahead { IsAhead from result.0 × IsAhead from result.1 }
    {
        let (zero, one) = halves(&self.name, &self.region);
        let fore = Ahead::new(child(&self.name, false), zero, from);
        let hind = Ahead::new(child(&self.name, true), one, from);
        (fore, hind)
    }

    fn new(name: Name, region: Region, from: Point) -> Ahead
        requires { region ≡ region_of name }
        ensures name { result.name ≡ name }
        ensures ahead { IsAhead from result }
    {
        Ahead {
            least: Reverse(least(&region, from)),
            name,
            region,
        }
    }
}

/// A subtree that isn't opened yet, and its place in the index.
#[derive(Drop)]
#[derive_where(PartialEq, Eq, PartialOrd, Ord)]
pub struct Waiting<P> {
    pub ahead: Ahead,
    #[derive_where(skip)]
    pub place: P,
}

/// Removes the nearest subtree from the heap and returns it.
pub fn take_nearest<P: Drop>(waiting: &mut BinaryHeap<Waiting<P>>) -> Option<Waiting<P>>
    requires { IsHeap waiting_cmp (heap_items waiting.old) }
    ensures taken { MatchOption result (heap_items waiting.old ≡ []) (λ next. IsNearest next (heap_items waiting.old)
        (heap_items waiting.new)) }
    ensures ordered { IsHeap waiting_cmp (heap_items waiting.new) }
{
    waiting.pop()
}

/// Returns two subtrees, the nearer first.
pub(crate) fn by_distance<P: Drop>(one: Waiting<P>, two: Waiting<P>) -> (Waiting<P>, Waiting<P>)
    ensures { IsOrder one two result.0 result.1 }
{
    if two.ahead.least.0 < one.ahead.least.0 {
        (two, one)
    } else {
        (one, two)
    }
}
