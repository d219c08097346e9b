//! The index: all leaves in one list.
ghost use Rattle.std.specs.Prelude.{◌≡◌, ◌≤◌, ◌+◌, length, map, true, IfOk};
ghost use Rattle.std.specs.Arc.{arc_value};
ghost use Rattle.bucket_versions.specs.Rows.{IsRows};
ghost use Rattle.index_layer.specs.Leaves.{AreLeaves, AreUnder, AreAllUnder, replaced, split};
ghost use Rattle.index_layer.specs.Below.{begins_some};
ghost use Rattle.index_layer.specs.LeavesProp.{AreLeaves-prop};
ghost use Rattle.flat_index.specs.Seen.{seen, seen_leaf, StandsAt};

use crate::leaf::{FlatLeaf, front_of, push_shared};
use crate::places::{place_named, place_of};
use bucket_versions::Bucket;
use index_layer::{Below, Index, IndexFault, Part};
use std::alloc::{AllocError, Global};
use std::sync::Arc;
use zorder::{Memory, Name, child};

/// An index as a list of leaves, in the order of their keys.
#[derive(Drop)]
pub struct FlatIndex {
    alloc: Global,
    leaves: Vec<FlatLeaf>,
    ghost are_leaves: { AreLeaves (seen leaves.items) } by { AreLeaves-prop (seen leaves.items) },
}

impl Index for FlatIndex {
    type Place = Vec<FlatLeaf>;

    ghost leaves = { λ s. seen s.leaves.items };

    ghost is_at = { λ s place name. begins_some name (seen s.leaves.items) ≡ true };

    ghost WIDTH = { 1 };

    const WIDTH: u8 = 1;

    ghost use Rattle.std.proofs.Common.{inl, refl};

    ghost are_leaves = { λ s. s.are_leaves };

    ghost width = { inl refl };

    fn whole(alloc: Global, bucket: Arc<Bucket>) -> Result<Self, Memory> {
        let mut leaves = Vec::new(alloc);
        leaves.push(FlatLeaf::new(Name::whole(), bucket))?;
        Ok(FlatIndex { alloc, leaves })
    }

    fn share(&self) -> Result<Self, Memory> {
        let leaves = front_of(self.alloc, &self.leaves, self.leaves.len(), 0)?;
        Ok(FlatIndex {
            alloc: self.alloc,
            leaves,
        })
    }

    fn leaf_of(&self, key: u64) -> (Name, &Arc<Bucket>) {
        let leaf = &self.leaves[place_of(&self.leaves, key)];
        (leaf.name, &leaf.bucket)
    }

    fn top(&self) -> &Vec<FlatLeaf> {
        &self.leaves
    }

    fn below<'a>(&'a self, name: &Name, place: &'a Vec<FlatLeaf>) -> Below<'a, Vec<FlatLeaf>> {
        match self.part(name) {
            Part::Leaf(bucket) => Below::Leaf(bucket),
            Part::Inner => Below::Halves {
                zero: place,
                one: place,
            },
            Part::Outside => unreachable!(),
        }
    }

    fn replaced(&self, name: &Name, bucket: Arc<Bucket>) -> Result<Self, IndexFault> {
        let Some(place) = place_named(&self.leaves, name) else {
            return Err(IndexFault::NoLeaf { name: *name });
        };
        let leaf = FlatLeaf::new(*name, bucket);
        let leaves = with_leaf(self.alloc, &self.leaves, place, leaf)?;
        Ok(FlatIndex {
            alloc: self.alloc,
            leaves,
        })
    }

    fn split(&self, name: &Name, children: &[Arc<Bucket>]) -> Result<Self, IndexFault> {
        let Some(place) = place_named(&self.leaves, name) else {
            return Err(IndexFault::NoLeaf { name: *name });
        };
        let leaves = with_children(self.alloc, &self.leaves, place, name, children)?;
        Ok(FlatIndex {
            alloc: self.alloc,
            leaves,
        })
    }
}

// Copies the leaves, with another leaf at `place`.
fn with_leaf(
    alloc: Global,
    leaves: &[FlatLeaf],
    place: usize,
    leaf: FlatLeaf,
) -> Result<Vec<FlatLeaf>, AllocError>
    requires tile { AreLeaves (seen leaves.now) }
    requires stands { StandsAt leaves.now place leaf.name }
    requires in_order { IsRows (seen_leaf leaf).bucket.rows }
    requires under { AreUnder leaf.name (seen_leaf leaf).bucket.rows }
    ensures leaves { IfOk result (λ v. seen v.items ≡ replaced leaf.name (seen_leaf leaf).bucket (seen leaves.now)) }
    ensures tile { IfOk result (λ v. AreLeaves (seen v.items)) }
{
    let mut all = front_of(alloc, leaves, place, 0)?;
    all.push(leaf)?;
    push_shared(&mut all, &leaves[place + 1..])?;
    Ok(all)
}

// Copies the leaves, with the leaf at `place` replaced by its two children.
fn with_children(
    alloc: Global,
    leaves: &[FlatLeaf],
    place: usize,
    name: &Name,
    children: &[Arc<Bucket>],
) -> Result<Vec<FlatLeaf>, AllocError>
    requires tile { AreLeaves (seen leaves.now) }
    requires stands { StandsAt leaves.now place name.now }
    requires short { length name.now + 1 ≤ 64 }
    requires count { length children.now ≡ 2 }
    requires under { AreAllUnder 1 name.now (map arc_value children.now) }
    ensures leaves { IfOk result (λ v. seen v.items ≡ split 1 name.now (map arc_value children.now) (seen leaves.now)) }
    ensures tile { IfOk result (λ v. AreLeaves (seen v.items)) }
{
    let mut all = front_of(alloc, leaves, place, 1)?;
    all.push(FlatLeaf::new(child(name, false), Arc::try_clone(&children[0])?))?;
    all.push(FlatLeaf::new(child(name, true), Arc::try_clone(&children[1])?))?;
    push_shared(&mut all, &leaves[place + 1..])?;
    Ok(all)
}
