//! The trait of indexes: leaves in the order of their keys, with a bucket of rows for each.
ghost use Rattle.std.specs.Prelude.{◌≡◌, ◌⊎◌, ◌^◌, ◌+◌, ◌-◌, ◌≤◌, ◌↔◌, min, ℕ, Bool, List, [], length, map, false, true, Ok, IfOk, OnOk, OnErr, IfErr, IsErrOf};
ghost use Rattle.std.specs.Arc.{arc_value};
ghost use Rattle.zorder.specs.Width.{IsWidth};
ghost use Rattle.bucket_versions.specs.Told.{Told};
ghost use Rattle.index_layer.specs.Leaves.{Leaf, AreLeaves, all_rows, one_leaf, has_name, leaf_under, replaced, split, AreUnder, AreAllUnder};
ghost use Rattle.index_layer.specs.Part.{IsPart};
ghost use Rattle.index_layer.specs.Below.{IsBelow, begins_some};
ghost use Rattle.index_layer.specs.Narrowed.{PassesBare};
ghost use Rattle.index_layer.specs.Subtree.{subtree};
ghost use Rattle.zorder.specs.Key.{is_under};
ghost use Rattle.index_layer.specs.RowChanges.{ChangesAt, CountAt, Moves, Holds};
ghost use Rattle.bucket_versions.specs.Rows.{after_put, after_gone};

use crate::names::goes_on;
use bucket_versions::{Bucket, Commit, RowChange, Undone};
use prefix_names::key_range;
use std::alloc::{AllocError, Global};
use std::sync::Arc;
use zorder::{Memory, Name};

/// What an index has at a name.
#[derive(Clone, Copy)]
pub enum Part<'a> {
    /// Leaves whose names are longer and begin with this name.
    Inner,
    /// A leaf with this name.
    Leaf(&'a Arc<Bucket>),
    /// Neither; the name is below a leaf.
    Outside,
}

/// What is below a place in an index.
pub enum Below<'a, P> {
    /// A leaf with the place's name.
    Leaf(&'a Arc<Bucket>),
    /// Leaves whose names are longer and begin with the place's name.
    Halves {
        /// The place of those leaves whose next bit is 0.
        zero: &'a P,
        /// The place of those leaves whose next bit is 1.
        one: &'a P,
    },
}

/// Why a call returned no index.
#[derive(Clone, Copy, Debug)]
pub enum IndexFault {
    /// No leaf has the name.
    NoLeaf {
        /// The caller's name.
        name: Name,
    },
    /// Memory ran out.
    Memory,
}

impl From<Memory> for IndexFault {
    ghost use Rattle.index_layer.specs.declared.index.IndexFault.TheVariants.{Memory};

    ghost from_gives = { λ _ fault. fault ≡ Memory };

    fn from(_: Memory) -> IndexFault {
        IndexFault::Memory
    }
}

impl From<AllocError> for IndexFault {
    ghost use Rattle.index_layer.specs.declared.index.IndexFault.TheVariants.{Memory};

    ghost from_gives = { λ _ fault. fault ≡ Memory };

    fn from(_: AllocError) -> IndexFault {
        IndexFault::Memory
    }
}

// Maps each error to `Memory`. The caller knows that its leaf exists, so only memory can be missing.
fn or_memory<T, E: Drop>(made: Result<T, E>) -> Result<T, Memory>
    ensures { IfOk result (λ x. made ≡ Ok x) }
{
    made.map_err(|_| Memory)
}

/// Leaves whose names tile the key space, each with a bucket of the rows under its name.
///
/// Indexes share what they have in common, but a call on one changes no other. A call that waits for a step (`Commit`)
/// changes the index itself, in place if the implementation can. If it returns `Err`, the leaves are unchanged.
pub trait Index: Sized + Drop {
    /// The leaves, in the order of their keys.
    ghost leaves: { Self → List Leaf };

    /// A position of a walk over the index, such as a node of a trie.
    type Place;

    /// A place has a name, with which some leaf's name begins.
    ghost is_at: { Self → Self.Place → List Bool → Type 0 };

    /// How many more bits a leaf's children have: 1 for two children, 2 for four.
    ghost WIDTH: { ℕ };

    /// How many more bits a leaf's children have: 1 for two children, 2 for four.
    const WIDTH: u8;

    /// Creates an index with one leaf, for the whole key space.
    fn whole(alloc: Global, bucket: Arc<Bucket>) -> Result<Self, Memory>
        ensures { IfOk result (λ index. leaves index ≡ one_leaf (arc_value bucket)) };

    /// Returns an equal index that shares its buckets with this one.
    fn share(&self) -> Result<Self, Memory>
        ensures { IfOk result (λ index. leaves index ≡ leaves self.now) };

    /// Returns the name and the bucket of the leaf that the key is under.
    fn leaf_of(&self, key: u64) -> (Name, &Arc<Bucket>)
        ensures { leaf_under key (leaves self.now) ≡ Some (record { name = result.0; bucket = arc_value result.1.now }) };

    /// Returns the number of rows in the leaf that the key is under.
    fn count_at(&self, key: u64) -> u64
        ensures { CountAt key result (leaves self.now) }
    {
        let (_, bucket) = self.leaf_of(key);
        bucket.count()
    }

    /// Returns what the index has at a name.
    fn part(&self, name: &Name) -> Part<'_>
        ensures { IsPart (leaves self.now) name.now result }
    {
        let (found, bucket) = self.leaf_of(name.bits());
        if found == *name {
            Part::Leaf(bucket)
        } else if goes_on(name, &found) {
            Part::Inner
        } else {
            Part::Outside
        }
    }

    /// Returns the place of the empty name, where a walk begins.
    fn top(&self) -> &Self::Place
        ensures { is_at self.now result.now [] };

    /// Returns what is below a place. It begins at the place, while `part` begins at the top.
    fn below<'a>(&'a self, name: &Name, place: &'a Self::Place) -> Below<'a, Self::Place>
        requires { is_at self.now place.now name.now }
        ensures { IsBelow (leaves self.now) (is_at self.now) name.now result };

    /// Returns a name that both keys are under, and its place. A walk over the keys between them may begin there. The
    /// name is the longest one that the implementation finds fast. A walk from the top goes through this place too, so
    /// beginning here skips no place between the keys.
    fn reach<'a>(&'a self, from: u64, to: u64) -> (Name, &'a Self::Place)
        ensures at { is_at self.now result.1.now result.0 }
        ensures over { (is_under result.0 from ≡ true) × (is_under result.0 to ≡ true) }
        ensures some { begins_some result.0 (leaves self.now) ≡ true }
    {
        (Name::whole(), self.top())
    }

    /// Returns a place at or below `place` that has all rows of its leaves. The walk skips only leaves without rows.
    fn narrow<'a>(&'a self, name: Name, place: &'a Self::Place) -> (Name, &'a Self::Place)
        requires { is_at self.now place.now name }
        ensures at { is_at self.now result.1.now result.0 }
        ensures passed { PassesBare name result.0 (leaves self.now) }
    {
        (name, place)
    }

    /// Returns the number of rows in the leaves below a place, at most 2^64 - 1. It opens no bucket.
    fn count_below(&self, name: &Name, place: &Self::Place) -> u64
        requires { is_at self.now place.now name.now }
        ensures { result ≡ min (length (all_rows (subtree name.now (leaves self.now)))) (2 ^ 64 - 1) }
    {
        let _ = place;
        let (first, last) = key_range(name);
        let (found, _) = self.leaf_of(first);
        if found.len() < name.len() {
            return 0;
        }
        let mut count = 0u64;
        let mut key = first;
        'leaves: loop {
            let (leaf, bucket) = self.leaf_of(key);
            count = count.saturating_add(bucket.count());
            let (_, end) = key_range(&leaf);
            if last <= end {
                return count;
            }
            key = end + 1;
        }
    }

    /// Returns the index with another bucket at a leaf.
    fn replaced(&self, name: &Name, bucket: Arc<Bucket>) -> Result<Self, IndexFault>
        requires { AreUnder name.now (arc_value bucket).rows }
        ensures ok { IfOk result (λ index. leaves index ≡ replaced name.now (arc_value bucket) (leaves self.now)) }
        ensures no_leaf { IsErrOf result (IndexFault.NoLeaf name.now) ↔ (has_name name.now (leaves self.now) ≡ false) }
        ensures fault { IfErr result (λ e. (e ≡ IndexFault.NoLeaf name.now) ⊎ (e ≡ IndexFault.Memory)) };

    /// Returns the index with a leaf replaced by its children, in the order of their keys.
    fn split(&self, name: &Name, children: &[Arc<Bucket>]) -> Result<Self, IndexFault>
        requires short { length name.now + WIDTH ≤ 64 }
        requires count { length children.now ≡ 2 ^ WIDTH }
        requires under { AreAllUnder WIDTH name.now (map arc_value children.now) }
        ensures ok { IfOk result (λ index. leaves index ≡ split WIDTH name.now (map arc_value children.now) (leaves self.now)) }
        ensures no_leaf { IsErrOf result (IndexFault.NoLeaf name.now) ↔ (has_name name.now (leaves self.now) ≡ false) }
        ensures fault { IfErr result (λ e. (e ≡ IndexFault.NoLeaf name.now) ⊎ (e ≡ IndexFault.Memory)) };

    /// Returns the index with one more row, in the leaf of the row's key.
    fn with_row(&self, put: RowChange) -> Result<Self, Memory>
        requires { Holds put.row (leaves self.now) false }
        ensures { IfOk result (λ index. ChangesAt put.row.key (after_put put) (leaves self.now) (leaves index)) }
    {
        let (name, bucket) = self.leaf_of(put.row.key);
        let changed = or_memory(bucket.with_put(put.row))?;
        let bucket = changed.settled(put.keeps_base)?.into_shared()?;
        or_memory(self.replaced(&name, bucket))
    }

    /// Returns the index without the row, in the leaf of the row's key.
    fn without_row(&self, gone: RowChange) -> Result<Self, Memory>
        requires { Holds gone.row (leaves self.now) true }
        ensures { IfOk result (λ index. ChangesAt gone.row.key (after_gone gone) (leaves self.now) (leaves index)) }
    {
        let (name, bucket) = self.leaf_of(gone.row.key);
        let changed = or_memory(bucket.with_gone(gone.row))?;
        let bucket = changed.settled(gone.keeps_base)?.into_shared()?;
        or_memory(self.replaced(&name, bucket))
    }

    /// Replaces the bucket of a leaf, once the step has succeeded.
    fn replace<C: Commit>(
        &mut self,
        name: &Name,
        bucket: Arc<Bucket>,
        commit: &mut C,
    ) -> Result<(), Undone>
        requires can { C.can commit.old }
        requires leaf { has_name name.now (leaves self.old) ≡ true }
        requires under { AreUnder name.now (arc_value bucket).rows }
        ensures ok { OnOk result (leaves self.new ≡ replaced name.now (arc_value bucket) (leaves self.old)) }
        ensures err { OnErr result (leaves self.new ≡ leaves self.old) }
        ensures told { Told C.done C.lost commit.old commit.new result }
    {
        let index = or_memory(self.replaced(name, bucket))?;
        if !commit.commit() {
            return Err(Undone::Lost);
        }
        *self = index;
        Ok(())
    }

    /// Replaces a leaf by its children, in the order of their keys, once the step has succeeded.
    fn divide<C: Commit>(
        &mut self,
        name: &Name,
        children: &[Arc<Bucket>],
        commit: &mut C,
    ) -> Result<(), Undone>
        requires can { C.can commit.old }
        requires leaf { has_name name.now (leaves self.old) ≡ true }
        requires short { length name.now + WIDTH ≤ 64 }
        requires children { (length children.now ≡ 2 ^ WIDTH) × AreAllUnder WIDTH name.now (map arc_value children.now) }
        ensures ok { OnOk result (leaves self.new ≡ split WIDTH name.now (map arc_value children.now) (leaves self.old)) }
        ensures err { OnErr result (leaves self.new ≡ leaves self.old) }
        ensures told { Told C.done C.lost commit.old commit.new result }
    {
        let index = or_memory(self.split(name, children))?;
        if !commit.commit() {
            return Err(Undone::Lost);
        }
        *self = index;
        Ok(())
    }

    /// Adds a row to the leaf of its key, once the step has succeeded, and returns the new number of rows in this leaf.
    fn put_row<C: Commit>(&mut self, put: RowChange, commit: &mut C) -> Result<u64, Undone>
        requires can { C.can commit.old }
        requires absent { Holds put.row (leaves self.old) false }
        ensures ok { OnOk result (ChangesAt put.row.key (after_put put) (leaves self.old) (leaves self.new)) }
        ensures count { IfOk result (λ n. CountAt put.row.key n (leaves self.new)) }
        ensures err { OnErr result (leaves self.new ≡ leaves self.old) }
        ensures told { Told C.done C.lost commit.old commit.new result }
    {
        let index = self.with_row(put)?;
        let count = index.count_at(put.row.key);
        if !commit.commit() {
            return Err(Undone::Lost);
        }
        *self = index;
        Ok(count)
    }

    /// Removes a row from the leaf of its key, once the step has succeeded.
    fn take_row<C: Commit>(&mut self, gone: RowChange, commit: &mut C) -> Result<(), Undone>
        requires can { C.can commit.old }
        requires present { Holds gone.row (leaves self.old) true }
        ensures ok { OnOk result (ChangesAt gone.row.key (after_gone gone) (leaves self.old) (leaves self.new)) }
        ensures err { OnErr result (leaves self.new ≡ leaves self.old) }
        ensures told { Told C.done C.lost commit.old commit.new result }
    {
        let index = self.without_row(gone)?;
        if !commit.commit() {
            return Err(Undone::Lost);
        }
        *self = index;
        Ok(())
    }

    /// Removes one row from the leaf of its key and adds another to the leaf of its own key, once the step has
    /// succeeded. Returns the new number of rows in the second leaf.
    fn move_row<C: Commit>(
        &mut self,
        from: RowChange,
        to: RowChange,
        commit: &mut C,
    ) -> Result<u64, Undone>
        requires can { C.can commit.old }
        requires present { Holds from.row (leaves self.old) true }
        requires absent { Holds to.row (leaves self.old) false }
        ensures ok { OnOk result (Moves from to (leaves self.old) (leaves self.new)) }
        ensures count { IfOk result (λ n. CountAt to.row.key n (leaves self.new)) }
        ensures err { OnErr result (leaves self.new ≡ leaves self.old) }
        ensures told { Told C.done C.lost commit.old commit.new result }
    {
        let between = self.without_row(from)?;
        let index = between.with_row(to)?;
        let count = index.count_at(to.row.key);
        if !commit.commit() {
            return Err(Undone::Lost);
        }
        *self = index;
        Ok(count)
    }

    /// The names tile the key space, and the rows of each leaf are in order and under its name.
    ghost are_leaves: { (index : Self) → AreLeaves (leaves index) };

    ghost width: { IsWidth WIDTH };
}
