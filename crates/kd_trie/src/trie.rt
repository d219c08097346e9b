//! The trie: nodes below one stem. Its leaves tile the key space.
ghost use Rattle.std.specs.Prelude.{◌≡◌, ◌≤◌, ◌⊎◌, []};
ghost use Rattle.index_layer.specs.Leaves.{AreLeaves, has_name};
ghost use Rattle.index_layer.specs.LeavesProp.{AreLeaves-prop};
ghost use Rattle.bit_trie.specs.Tries.{height, leaves_under};
ghost use Rattle.kd_trie.specs.Nodes.{StandsFor};
ghost use Rattle.kd_trie.specs.Stems.{GoesPast};
ghost use Rattle.kd_trie.specs.Wholes.{whole};

use crate::node::Node;
use crate::stem::{Stemmed, narrowed};
use bit_trie::{at_once, in_order, in_range};
use bucket_versions::{AtOnce, Bucket, Commit, RowChange, Undone};
use index_layer::{Below, Index, IndexFault, goes_on};
use std::alloc::Global;
use std::sync::Arc;
use zorder::{Memory, Name, first_bits};

/// Leaves whose names tile the key space, below nodes that tries share.
///
/// A change never writes to a node that another trie can reach. It first copies the shared nodes on the path to its
/// leaf.
#[derive(Drop)]
pub struct KdTrie {
    tree: Stemmed,
    ghost short: { height (whole tree) ≤ 64 },
    ghost are_leaves: { AreLeaves (leaves_under [] (whole tree)) } by { AreLeaves-prop (leaves_under [] (whole tree)) },
}

impl KdTrie {
    // Returns whether a leaf has this name.
    fn has_leaf(&self, name: &Name) -> bool
        ensures { result ≡ has_name name.now (leaves_under [] (whole self.now.tree)) }
    {
        let (found, _) = self.leaf_of(name.bits());
        found == *name
    }
}

impl Index for KdTrie {
    type Place = Node;

    ghost leaves = { λ s. leaves_under [] (whole s.tree) };

    ghost is_at = { λ s place name. GoesPast name s.tree.stem.name ⊎ StandsFor s.tree.counts_hold name (whole s.tree) place };

    ghost WIDTH = { 1 };

    const WIDTH: u8 = 1;

    ghost use Rattle.std.proofs.Common.{inl, refl};

    ghost are_leaves = { λ s. s.are_leaves };

    ghost width = { inl refl };

    fn whole(alloc: Global, bucket: Arc<Bucket>) -> Result<Self, Memory> {
        in_order(&bucket);
        let tree = Stemmed::leaf(alloc, bucket)?;
        Ok(KdTrie { tree })
    }

    fn share(&self) -> Result<Self, Memory> {
        let tree = self.tree.share()?;
        Ok(KdTrie { tree })
    }

    fn leaf_of(&self, key: u64) -> (Name, &Arc<Bucket>) {
        let (left, bucket) = self.tree.leaf_of(key);
        (first_bits(key, 64 - left), bucket)
    }

    fn top(&self) -> &Node {
        &self.tree.root
    }

    fn below<'a>(&'a self, name: &Name, place: &'a Node) -> Below<'a, Node> {
        let tree = &self.tree;
        if let Some(side) = tree.stem.side_past(name) {
            // Along the stem, the name alone says where a walk is. The root is the place for all steps of the stem.
            return if side.bit {
                Below::Halves {
                    zero: &side.node,
                    one: &tree.root,
                }
            } else {
                Below::Halves {
                    zero: &tree.root,
                    one: &side.node,
                }
            };
        }
        match place {
            Node::Leaf(bucket) => Below::Leaf(bucket),
            Node::Inner(pair) => Below::Halves {
                zero: &pair.zero,
                one: &pair.one,
            },
        }
    }

    fn reach<'a>(&'a self, from: u64, to: u64) -> (Name, &'a Node) {
        let Some((left, node)) = self.tree.parting(from, to) else {
            return (Name::whole(), &self.tree.root);
        };
        (first_bits(from, 64 - left), node)
    }

    fn narrow<'a>(&'a self, name: Name, place: &'a Node) -> (Name, &'a Node) {
        let tree = &self.tree;
        // There are no rows next to the stem, so a walk may begin at its end.
        if goes_on(&name, &tree.stem.name) {
            narrowed(tree.stem.name, &tree.root)
        } else {
            narrowed(name, place)
        }
    }

    fn count_below(&self, name: &Name, place: &Node) -> u64 {
        let tree = &self.tree;
        // There are no rows next to the stem.
        if goes_on(name, &tree.stem.name) {
            tree.count_of(&tree.root)
        } else {
            tree.count_of(place)
        }
    }

    fn replaced(&self, name: &Name, bucket: Arc<Bucket>) -> Result<Self, IndexFault> {
        if !self.has_leaf(name) {
            return Err(IndexFault::NoLeaf { name: *name });
        }
        let mut index = self.share()?;
        at_once(index.replace(name, bucket, &mut AtOnce))?;
        Ok(index)
    }

    fn split(&self, name: &Name, children: &[Arc<Bucket>]) -> Result<Self, IndexFault> {
        if !self.has_leaf(name) {
            return Err(IndexFault::NoLeaf { name: *name });
        }
        let mut index = self.share()?;
        at_once(index.divide(name, children, &mut AtOnce))?;
        Ok(index)
    }

    fn replace<C: Commit>(
        &mut self,
        name: &Name,
        bucket: Arc<Bucket>,
        commit: &mut C,
    ) -> Result<(), Undone> {
        in_order(&bucket);
        self.tree.put(name.bits(), bucket, commit)
    }

    fn divide<C: Commit>(
        &mut self,
        name: &Name,
        children: &[Arc<Bucket>],
        commit: &mut C,
    ) -> Result<(), Undone> {
        let zero = Arc::try_clone(&children[0])?;
        let one = Arc::try_clone(&children[1])?;
        in_order(&zero);
        in_order(&one);
        self.tree.divide(name.bits(), zero, one, commit)
    }

    fn put_row<C: Commit>(&mut self, put: RowChange, commit: &mut C) -> Result<u64, Undone> {
        in_range(put.row.key);
        self.tree.put_row(&put, commit)
    }

    fn take_row<C: Commit>(&mut self, gone: RowChange, commit: &mut C) -> Result<(), Undone> {
        in_range(gone.row.key);
        self.tree.take_row(&gone, commit)
    }

    fn move_row<C: Commit>(
        &mut self,
        from: RowChange,
        to: RowChange,
        commit: &mut C,
    ) -> Result<u64, Undone> {
        in_range(from.row.key);
        in_range(to.row.key);
        self.tree.shift_row(&from, &to, commit)
    }
}
