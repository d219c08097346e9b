//! The trie. Its leaves tile the key space.
ghost use Rattle.std.specs.Prelude.{◌≡◌, ◌≤◌, ◌++◌, ◌∷◌, [], List, Bool};
ghost use Rattle.index_layer.specs.Leaves.{AreLeaves, has_name};
ghost use Rattle.index_layer.specs.LeavesProp.{AreLeaves-prop};
ghost use Rattle.bit_trie.specs.Tries.{height, leaves_under};
ghost use Rattle.quad_trie.specs.Nodes.{seen};
ghost use Rattle.quad_trie.specs.Places.{IsAt};

use crate::narrow::narrowed;
use crate::node::{Node, agreed, count, fours, graft, leaf_of};
use crate::rows;
use bit_trie::{Coming, Going, at_once, in_order, in_range};
use bucket_versions::{AtOnce, Bucket, Commit, RowChange, Undone};
use index_layer::{Below, Index, IndexFault};
use std::alloc::Global;
use std::sync::Arc;
use zorder::{Memory, Name, child, first_bits};

/// Leaves whose names tile the key space, below nodes that tries share.
#[derive(Drop)]
pub struct QuadTrie {
    alloc: Global,
    root: Node,
    ghost short: { height (seen root) ≤ 64 },
    ghost are_leaves: { AreLeaves (leaves_under [] (seen root)) } by { AreLeaves-prop (leaves_under [] (seen root)) },
}

impl QuadTrie {
    // Returns whether a leaf has this name.
    fn has_leaf(&self, name: &Name) -> bool
        ensures { result ≡ has_name name.now (leaves_under [] (seen self.now.root)) }
    {
        let (found, _) = self.leaf_of(name.bits());
        found == *name
    }
}

impl Index for QuadTrie {
    type Place = Node;

    ghost leaves = { λ s. leaves_under [] (seen s.root) };

    ghost is_at = { λ s place name. IsAt (seen s.root) (seen place) name };

    ghost WIDTH = { 2 };

    const WIDTH: u8 = 2;

    ghost use Rattle.std.proofs.Common.{inr, refl};

    ghost are_leaves = { λ s. s.are_leaves };

    ghost width = { inr refl };

    fn whole(alloc: Global, bucket: Arc<Bucket>) -> Result<Self, Memory> {
        in_order(&bucket);
        Ok(QuadTrie {
            alloc,
            root: Node::Leaf(bucket),
        })
    }

    fn share(&self) -> Result<Self, Memory> {
        let root = self.root.share()?;
        Ok(QuadTrie {
            alloc: self.alloc,
            root,
        })
    }

    fn leaf_of(&self, key: u64) -> (Name, &Arc<Bucket>) {
        let (left, bucket) = leaf_of(&self.root, key, 64);
        (first_bits(key, 64 - left), bucket)
    }

    fn top(&self) -> &Node {
        &self.root
    }

    fn below<'a>(&'a self, name: &Name, place: &'a Node) -> Below<'a, Node> {
        let quad = match place {
            Node::Leaf(bucket) => return Below::Leaf(bucket),
            Node::Inner(quad) => quad,
        };
        if name.len() % 2 == 0 {
            // Between two levels, this node is the place of both halves. The last bit of the name says which half is
            // meant.
            Below::Halves {
                zero: place,
                one: place,
            }
        } else if ends_with_one(name) {
            Below::Halves {
                zero: &quad.one_zero,
                one: &quad.one_one,
            }
        } else {
            Below::Halves {
                zero: &quad.zero_zero,
                one: &quad.zero_one,
            }
        }
    }

    fn reach<'a>(&'a self, from: u64, to: u64) -> (Name, &'a Node) {
        let (left, node) = agreed(&self.root, from, to, 64);
        (first_bits(from, 64 - left), node)
    }

    fn narrow<'a>(&'a self, name: Name, place: &'a Node) -> (Name, &'a Node) {
        if name.len() % 2 == 1 {
            return (name, place);
        }
        narrowed(name, place)
    }

    fn count_below(&self, name: &Name, place: &Node) -> u64 {
        let quad = match place {
            Node::Leaf(bucket) => return bucket.count(),
            Node::Inner(quad) => quad,
        };
        if name.len() % 2 == 0 {
            count(place)
        } else {
            quad.count_half(ends_with_one(name))
        }
    }

    fn replaced(&self, name: &Name, bucket: Arc<Bucket>) -> Result<Self, IndexFault> {
        if !self.has_leaf(name) {
            return Err(IndexFault::NoLeaf { name: *name });
        }
        let mut index = self.share()?;
        at_once(index.replace(name, bucket, &mut AtOnce))?;
        Ok(index)
    }

    fn split(&self, name: &Name, children: &[Arc<Bucket>]) -> Result<Self, IndexFault> {
        if !self.has_leaf(name) {
            return Err(IndexFault::NoLeaf { name: *name });
        }
        let mut index = self.share()?;
        at_once(index.divide(name, children, &mut AtOnce))?;
        Ok(index)
    }

    fn replace<C: Commit>(
        &mut self,
        name: &Name,
        bucket: Arc<Bucket>,
        commit: &mut C,
    ) -> Result<(), Undone> {
        in_order(&bucket);
        graft(&mut self.root, name.bits(), 64, Node::Leaf(bucket), commit)
    }

    fn divide<C: Commit>(
        &mut self,
        name: &Name,
        children: &[Arc<Bucket>],
        commit: &mut C,
    ) -> Result<(), Undone> {
        let first = Arc::try_clone(&children[0])?;
        let second = Arc::try_clone(&children[1])?;
        let third = Arc::try_clone(&children[2])?;
        let fourth = Arc::try_clone(&children[3])?;
        in_order(&first);
        in_order(&second);
        in_order(&third);
        in_order(&fourth);
        let part = fours(self.alloc, first, second, third, fourth)?;
        graft(&mut self.root, name.bits(), 64, part, commit)
    }

    fn put_row<C: Commit>(&mut self, put: RowChange, commit: &mut C) -> Result<u64, Undone> {
        in_range(put.row.key);
        let mut to = Coming {
            change: put,
            ended: Err(Undone::Memory),
        };
        rows::put_row(&mut self.root, &mut to, 64, commit);
        to.ended
    }

    fn take_row<C: Commit>(&mut self, gone: RowChange, commit: &mut C) -> Result<(), Undone> {
        in_range(gone.row.key);
        let mut from = Going {
            change: gone,
            ended: Err(Undone::Memory),
        };
        rows::take_row(&mut self.root, &mut from, 64, commit);
        from.ended
    }

    fn move_row<C: Commit>(
        &mut self,
        from: RowChange,
        to: RowChange,
        commit: &mut C,
    ) -> Result<u64, Undone> {
        in_range(from.row.key);
        in_range(to.row.key);
        let mut to = Coming {
            change: to,
            ended: Err(Undone::Memory),
        };
        rows::shift_row(&mut self.root, &from, &mut to, 64, commit);
        to.ended
    }
}

// Returns whether the last bit of a name is 1.
fn ends_with_one(name: &Name) -> bool
    requires { (front : List Bool) × (bit : Bool) × (name.now ≡ front ++ bit ∷ []) }
    ensures { (front : List Bool) (bit : Bool) → name.now ≡ front ++ bit ∷ [] → result ≡ bit }
{
    let front = first_bits(name.bits(), name.len() - 1);
    child(&front, true) == *name
}
