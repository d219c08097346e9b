//! Binary search for a leaf by the first keys of the leaves.
ghost use Rattle.std.specs.Prelude.{◌≡◌, ◌<◌, Some, length, true, false, slice_index_or, MatchOption, IfSome};
ghost use Rattle.index_layer.specs.Leaves.{Leaf, AreLeaves, has_name, leaf_under};
ghost use Rattle.flat_index.specs.Seen.{seen};

use crate::leaf::FlatLeaf;
use zorder::Name;

/// Returns the index of the leaf that a key is under.
pub(crate) fn place_of(leaves: &[FlatLeaf], key: u64) -> usize
    requires { AreLeaves (seen leaves.now) }
    ensures within { result < length leaves.now }
    ensures found { (d : Leaf) → leaf_under key (seen leaves.now) ≡ Some (slice_index_or (seen leaves.now) result d) }
{
    let end = leaves.partition_point(|leaf| leaf.name.bits() <= key);
    end - 1
}

/// Returns the index of the leaf with this name.
pub(crate) fn place_named(leaves: &[FlatLeaf], name: &Name) -> Option<usize>
    requires { AreLeaves (seen leaves.now) }
    ensures within { MatchOption result (has_name name.now (seen leaves.now) ≡ false) (λ i. i < length leaves.now) }
    ensures there { IfSome result (λ _. has_name name.now (seen leaves.now) ≡ true) }
    ensures named { IfSome result (λ i. (d : Leaf) → (slice_index_or (seen leaves.now) i d).name ≡ name.now) }
{
    let place = place_of(leaves, name.bits());
    if leaves[place].name == *name {
        Some(place)
    } else {
        None
    }
}
