//! The leaves, each with the number of the split that was last begun of it.
ghost use Rattle.std.specs.Prelude.{◌≡◌, ◌⊎◌, ◌+◌, ◌≤◌, ◌<◌, ◌^◌, [], ◌∷◌, ◌++◌, List, length, true, false, Some, OnOk, OnErr, IfOk, vec_len, vec_capacity};
ghost use Rattle.zorder.specs.Width.{IsWidth};
ghost use Rattle.zorder.specs.Tile.{Tile};
ghost use Rattle.plain_list.specs.State.{is_leaf, split_leaf};
ghost use Rattle.recovery.specs.LeafMap.{names_of, split_at, with_begun, halved, new_leaf, KeepsMarks, HasHalved};
ghost use Rattle.recovery.specs.declared.leaf_map.MarkedLeaf.{MarkedLeaf};

use crate::seen::Leaves;
use std::alloc::{AllocError, Global};
use std::collections::BTreeMap;
use std::marker::Model;
use zorder::{Name, child};

/// A leaf, and the number of the split that was last begun of it. The number is 0 if there was none.
#[derive(Clone, Copy)]
pub(crate) struct MarkedLeaf {
    pub(crate) name: Name,
    pub(crate) split: u64,
}

/// The leaves by their first keys. They tile the key space. Contracts see them as a list in the order of the keys.
#[derive(Drop)]
pub(crate) struct LeafMap {
    leaves: BTreeMap<u64, MarkedLeaf>,
}

impl Model for LeafMap {
    ghost use Rattle.std.specs.Prelude.{List};
    ghost use Rattle.recovery.specs.declared.leaf_map.MarkedLeaf.{MarkedLeaf};

    ghost Value = { List MarkedLeaf };

    ghost use Rattle.recovery.specs.LeafMap.{leaves_of, IsLeafMap};

    ghost view = { λ m. leaves_of m.leaves.entries };

    ghost invariant = { λ m. IsLeafMap m.leaves.entries };
}

impl LeafMap {
    /// The one leaf of the whole space.
    pub(crate) fn whole(alloc: Global) -> Result<LeafMap, AllocError>
        ensures { IfOk result (λ m. m ≡ new_leaf [] ∷ []) }
    {
        let mut leaves = BTreeMap::new(alloc);
        leaves.insert(0, new_leaf(Name::whole()))?;
        Ok(LeafMap { leaves })
    }

    /// The number of the split that was last begun of the leaf with this name, if there is such a leaf.
    pub(crate) fn split_at(&self, name: &Name) -> Option<u64>
        ensures { result ≡ split_at self.now name.now }
    {
        let found = self.leaves.get(&name.bits()).copied()?;
        if found.name == *name {
            Some(found.split)
        } else {
            None
        }
    }

    /// Notes that a split of a leaf was begun. It takes no memory.
    pub(crate) fn begin(&mut self, name: Name, number: u64)
        requires { is_leaf (names_of self.old) name ≡ true }
        ensures { self.new ≡ with_begun name number self.old }
    {
        let leaf = MarkedLeaf {
            name,
            split: number,
        };
        let _ = self.leaves.insert(name.bits(), leaf);
    }

    /// Replaces a leaf by its two halves.
    fn halve(&mut self, name: &Name) -> Result<(), AllocError>
        requires leaf { is_leaf (names_of self.old) name.now ≡ true }
        requires short { length name.now < 64 }
        ensures ok { OnOk result (self.new ≡ halved name.now self.old) }
        ensures err { OnErr result (self.new ≡ self.old) }
        ensures tile { Tile (names_of self.old) }
    {
        let second = new_leaf(child(name, true));
        self.leaves.insert(second.name.bits(), second)?;
        // Last, because it takes no memory: the first half has the same key as the leaf.
        let _ = self
            .leaves
            .insert(name.bits(), new_leaf(child(name, false)));
        Ok(())
    }

    /// Undoes `halve` for a leaf that had the mark `split`. It takes no memory.
    fn unite(&mut self, name: &Name, split: u64)
        requires halved { (leaves : List MarkedLeaf) × HasHalved name.now split leaves self.old }
        ensures { (leaves : List MarkedLeaf) → HasHalved name.now split leaves self.old → self.new ≡ leaves }
    {
        self.leaves.remove(&child(name, true).bits());
        let leaf = MarkedLeaf { name: *name, split };
        let _ = self.leaves.insert(name.bits(), leaf);
    }

    /// Replaces a leaf by its children, whose names have `width` more bits.
    pub(crate) fn split(&mut self, name: &Name, width: u8) -> Result<(), AllocError>
        requires leaf { is_leaf (names_of self.old) name.now ≡ true }
        requires width { IsWidth width }
        requires short { length name.now + width ≤ 64 }

        ensures names { OnOk result (names_of self.new ≡ split_leaf width name.now (names_of self.old)) }
        ensures kept { OnOk result (KeepsMarks name.now self.old self.new) }
        ensures err { OnErr result (self.new ≡ self.old) }
    {
        if width == 2 {
            self.quarter(name)
        } else {
            self.halve(name)
        }
    }

    /// Replaces a leaf by its four quarters.
    fn quarter(&mut self, name: &Name) -> Result<(), AllocError>
        requires leaf { is_leaf (names_of self.old) name.now ≡ true }
        requires short { length name.now + 2 ≤ 64 }
        ensures ok { OnOk result (self.new ≡ halved (name.now ++ true ∷ []) (halved (name.now ++ false ∷ []) (halved name.now self.old))) }
        ensures err { OnErr result (self.new ≡ self.old) }
        ensures tile { Tile (names_of self.old) }
    {
        let mark = self.split_at(name);
        self.halve(name)?;
        if let Err(refused) = self.halve_both(name) {
            self.unite(name, mark.unwrap_or(0));
            return Err(refused);
        }
        Ok(())
    }

    /// Replaces both halves of a leaf by their halves.
    fn halve_both(&mut self, name: &Name) -> Result<(), AllocError>
        requires halved { (leaves : List MarkedLeaf) × (is_leaf (names_of leaves) name.now ≡ true) × Tile (names_of leaves)
            × (self.old ≡ halved name.now leaves) }
        requires short { length name.now + 2 ≤ 64 }
        ensures ok { OnOk result (self.new ≡ halved (name.now ++ true ∷ []) (halved (name.now ++ false ∷ []) self.old)) }
        ensures err { OnErr result (self.new ≡ self.old) }
    {
        let first = child(name, false);
        self.halve(&first)?;
        if let Err(refused) = self.halve(&child(name, true)) {
            self.unite(&first, 0);
            return Err(refused);
        }
        Ok(())
    }

    pub(crate) fn len(&self) -> usize
        ensures len { result ≡ length (names_of self.now) }
        ensures small { result < 2 ^ 63 }
    {
        self.leaves.len()
    }

    /// The names of the leaves, in memory that was allocated before.
    pub(crate) fn names_in(&self, mut room: Vec<Name>) -> Leaves
        requires empty { vec_len room ≡ 0 }
        requires enough { length (names_of self.now) ≤ vec_capacity room }
        ensures { result ≡ names_of self.now }
    {
        for leaf in self.leaves.values() {
            room.push_reserved(leaf.name);
        }
        Leaves::from_vec(room)
    }
}

/// A leaf of which no split was begun.
fn new_leaf(name: Name) -> MarkedLeaf
    ensures { result ≡ new_leaf name }
{
    MarkedLeaf { name, split: 0 }
}
