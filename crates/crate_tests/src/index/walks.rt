//! Where walks over an index may begin.
ghost use Rattle.std.specs.Prelude.{◌≡◌, ◌∷◌, [], false, true};

use crate::worlds::world_of;
use flat_index::FlatIndex;
use index_build::build;
use index_layer::{Below, Index};
use kd_trie::KdTrie;
use quad_trie::QuadTrie;
use std::alloc::Global;
use std::process::Abort;
use zorder::{Memory, Name, Placed, Point, begins, child};

// The keys of the objects. Their first bits are 000 and 001.
const FIRST: u64 = 0;

const SECOND: u64 = 2_305_843_009_213_693_952;

// The first key under 01, where no object is.
const BESIDE: u64 = 4_611_686_018_427_387_904;

// One at each of the two keys.
const OBJECTS: &[Placed] = &[
    Placed {
        id: 4,
        at: Point { x: 0, y: 0 },
    },
    Placed {
        id: 9,
        at: Point {
            x: 1_073_741_824,
            y: 0,
        },
    },
];

// The names 0, 00, 000 and 001.
fn half() -> Name
    ensures { result ≡ false ∷ [] }
{
    child(&Name::whole(), false)
}

fn quarter() -> Name
    ensures { result ≡ false ∷ false ∷ [] }
{
    child(&half(), false)
}

fn first_eighth() -> Name
    ensures { result ≡ false ∷ false ∷ false ∷ [] }
{
    child(&quarter(), false)
}

fn second_eighth() -> Name
    ensures { result ≡ false ∷ false ∷ true ∷ [] }
{
    child(&quarter(), true)
}

// Leaves 000 and 001 with an object each, and 01 and 1 with none.
fn sparse_by_one_bit<I: Index>(alloc: Global) -> Result<I, Memory>
    requires { I.WIDTH ≡ 1 }
{
    let (first, second) = (first_eighth(), second_eighth());
    let beside = child(&half(), true);
    let behind = child(&Name::whole(), true);
    let names = [first, second, beside, behind];
    build::<I>(alloc, &world_of(alloc, OBJECTS)?, &names)
}

// Leaves 0000 and 0010 with an object each, and 0001, 0011, 01, 10 and 11 with none.
fn sparse_by_two_bits<I: Index>(alloc: Global) -> Result<I, Memory>
    requires { I.WIDTH ≡ 2 }
{
    let (first, second) = (first_eighth(), second_eighth());
    let (low, high) = (child(&first, false), child(&first, true));
    let (next_low, next_high) = (child(&second, false), child(&second, true));
    let beside = child(&half(), true);
    let behind = child(&Name::whole(), true);
    let (third, last) = (child(&behind, false), child(&behind, true));
    let names = [low, high, next_low, next_high, beside, third, last];
    build::<I>(alloc, &world_of(alloc, OBJECTS)?, &names)
}

fn sparse<I: Index>(alloc: Global) -> Result<I, Memory> {
    if I::WIDTH == 1 {
        sparse_by_one_bit(alloc)
    } else {
        sparse_by_two_bits(alloc)
    }
}

fn has_halves<P>(below: Below<'_, P>) -> bool {
    match below {
        Below::Leaf(_) => false,
        Below::Halves { zero: _, one: _ } => true,
    }
}

// Where walks begin: between the two objects, at the first one, and over all objects.
fn begins_at<I: Index>(rt: &impl Abort, alloc: Global, both: Name, first: Name, all: Name) {
    let index = sparse::<I>(alloc).expect(rt, "it failed");
    begins_between(rt, &index, both);
    begins_over_all(rt, &index, all);
    let (at_first, behind) = (index.reach(FIRST, FIRST).0, index.reach(SECOND, BESIDE).0);
    assert_same!(rt; at_first, first);
    assert_is!(rt; begins(&behind, SECOND) && begins(&behind, BESIDE));
}

fn begins_between<I: Index>(rt: &impl Abort, index: &I, both: Name) {
    let (between, place) = index.reach(FIRST, SECOND);
    assert_is!(rt; has_halves(index.below(&between, place)));
    assert_same!(rt; between, both);
}

fn begins_over_all<I: Index>(rt: &impl Abort, index: &I, all: Name) {
    let (over_all, place) = index.narrow(Name::whole(), index.top());
    assert_is!(rt; has_halves(index.below(&over_all, place)));
    assert_same!(rt; over_all, all);
}

#[test]
fn walks_over_a_flat_index_begin_at_the_top(rt: HostRuntime) {
    let top = Name::whole();
    begins_at::<FlatIndex>(&rt, rt.alloc(), top, top, top);
}

#[test]
fn walks_over_a_trie_begin_where_there_is_something_to_see(rt: HostRuntime) {
    let (kd_leaf, quad_leaf) = (first_eighth(), child(&first_eighth(), false));
    begins_at::<KdTrie>(&rt, rt.alloc(), quarter(), kd_leaf, quarter());
    begins_at::<QuadTrie>(&rt, rt.alloc(), quarter(), quad_leaf, quarter());
}
