//! The stem: the path from the top of a trie to its first branch, as one list instead of pairs.
ghost use Rattle.std.specs.Prelude.{◌≡◌, ◌≤◌, ◌+◌, [], Some, None, true, length, IfOk, IfSome};
ghost use Rattle.std.specs.Arc.{arc_value};
ghost use Rattle.zorder.specs.Bits.{low_bits};
ghost use Rattle.bit_trie.specs.Tries.{halves, height, name_at, bucket_at, is_bare};
ghost use Rattle.kd_trie.specs.Nodes.{seen, is_counted};
ghost use Rattle.kd_trie.specs.Stems.{GoesPast, Passing, way_of, stem_over, all_bare};
ghost use Rattle.bit_trie.specs.Walks.{Narrows};

use crate::node::{Node, Pair, leaf_of};
use bit_trie::next_bit;
use bucket_versions::Bucket;
use index_layer::goes_on;
use std::alloc::{AllocError, Global};
use std::sync::Arc;
use zorder::{Name, child};

/// One step of a stem.
#[derive(Drop)]
pub(crate) struct Side {
    /// The bit of the step.
    pub(crate) bit: bool,
    /// The node for the other bit.
    pub(crate) node: Node,
}

/// A path from the top, as a name, and the node next to each of its steps. Each of these nodes is a leaf without rows.
#[derive(Drop)]
pub(crate) struct Stem {
    pub(crate) name: Name,
    pub(crate) aside: Arc<Vec<Side>>,
    ghost named: { name ≡ way_of (arc_value aside).items },
    ghost bare: { all_bare (arc_value aside).items ≡ true },
}

/// A trie: a stem, and the node to which it leads.
///
/// If all objects are in one small region, each trie over them begins with a long path without a branch. As pairs, this
/// path would be copied with each changed path. As a stem, it is shared whole.
#[derive(Drop)]
pub(crate) struct Stemmed {
    pub(crate) alloc: Global,
    pub(crate) stem: Stem,
    pub(crate) root: Node,
    /// How many of the latest changes, without a gap, could have lengthened the stem.
    pub(crate) waited: u8,
    /// Whether the counts of all pairs are right. They may be wrong after a failed change, if there was no memory to
    /// recount.
    pub(crate) counts_hold: bool,
    ghost counted: { counts_hold ≡ true → is_counted root ≡ true },
}

impl Stem {
    /// Returns the stem of no bits.
    pub(crate) fn none(alloc: Global) -> Result<Stem, AllocError>
        ensures sides { IfOk result (λ s. (arc_value s.aside).items ≡ []) }
        ensures name { IfOk result (λ s. s.name ≡ []) }
    {
        let aside = Arc::new(alloc, Vec::new(alloc))?;
        Ok(Stem {
            name: Name::whole(),
            aside,
        })
    }

    /// Returns an equal stem, which shares its list.
    pub(crate) fn share(&self) -> Result<Stem, AllocError>
        ensures { IfOk result (λ s. (arc_value s.aside).items ≡ (arc_value self.now.aside).items) }
    {
        let aside = Arc::try_clone(&self.aside)?;
        Ok(Stem {
            name: self.name,
            aside,
        })
    }

    /// Returns the step that comes after a name, if the stem continues after that name.
    pub(crate) fn side_past(&self, name: &Name) -> Option<&Side>
        ensures some { IfSome result (λ s. Passing name.now (arc_value self.now.aside).items s.now) }
        ensures none { result ≡ None → GoesPast name.now self.now.name → ⊥ }
    {
        if goes_on(name, &self.name) {
            Some(&self.aside[name.len() as usize])
        } else {
            None
        }
    }
}

/// Returns the bucket to which the last `left` bits of a key lead, where `sides` begin, and how many bits are left at
/// its leaf.
pub(crate) fn leaf_past<'a>(
    sides: &'a [Side],
    root: &'a Node,
    key: u64,
    left: u8,
) -> (u8, &'a Arc<Bucket>)
    requires height { height (stem_over sides.now (seen root.now)) ≤ left }
    requires most { left ≤ 64 }
    ensures bucket { bucket_at (low_bits left key) (stem_over sides.now (seen root.now)) ≡ Some (arc_value result.1.now) }
    ensures left { result.0 + length (name_at (low_bits left key) (stem_over sides.now (seen root.now))) ≡ left }
{
    let Some((side, later)) = sides.split_first() else {
        return leaf_of(root, key, left);
    };
    if next_bit(key, left) == side.bit {
        leaf_past(later, root, key, left - 1)
    } else {
        leaf_of(&side.node, key, left - 1)
    }
}

/// Returns the node that a stem with these steps and the node `root` represent.
pub(crate) fn unwound(alloc: Global, sides: &[Side], root: &Node) -> Result<Node, AllocError>
    requires bare { all_bare sides.now ≡ true }
    requires counted { is_counted root.now ≡ true }
    ensures over { IfOk result (λ n. seen n ≡ stem_over sides.now (seen root.now)) }
    ensures counted { IfOk result (λ n. is_counted n ≡ true) }
{
    let Some((side, later)) = sides.split_first() else {
        return root.share();
    };
    let on = unwound(alloc, later, root)?;
    let beside = side.node.share()?;
    let count = on.count();
    let pair = if side.bit {
        Pair {
            zero: beside,
            one: on,
            count,
        }
    } else {
        Pair {
            zero: on,
            one: beside,
            count,
        }
    };
    Ok(Node::Inner(Arc::new(alloc, pair)?))
}

/// Returns the bit of the other half, the leaf and the other half, if exactly one half of the node is a leaf without
/// rows. A stem goes only past such leaves, so a change of a present row never leaves the stem.
pub(crate) fn step(node: &Node) -> Option<(bool, &Node, &Node)>
    ensures halves { IfSome result (λ s. seen node.now ≡ halves s.0 (seen s.1.now) (seen s.2.now)) }
    ensures bare { IfSome result (λ s. is_bare (seen s.1.now) ≡ true) }
    ensures counted { is_counted node.now ≡ true → IfSome result (λ s. is_counted s.2.now ≡ true) }
{
    let Node::Inner(pair) = node else {
        return None;
    };
    if is_bare(&pair.zero) == is_bare(&pair.one) {
        return None;
    }
    if is_bare(&pair.zero) {
        Some((true, &pair.zero, &pair.one))
    } else {
        Some((false, &pair.one, &pair.zero))
    }
}

/// Returns whether a half is a leaf. If none is, no step goes past a leaf without rows.
#[inline(always)]
pub(crate) fn has_leaf_half(node: &Node) -> bool {
    let Node::Inner(pair) = node else {
        return false;
    };
    is_leaf(&pair.zero) || is_leaf(&pair.one)
}

fn is_leaf(node: &Node) -> bool {
    matches!(node, Node::Leaf(_))
}

fn is_bare(node: &Node) -> bool
    ensures { result ≡ is_bare (seen node.now) }
{
    match node {
        Node::Leaf(bucket) => bucket.count() == 0,
        Node::Inner(_) => false,
    }
}

/// Goes down as long as exactly one half is a leaf without rows, and appends each such step to `aside` and `name`.
pub(crate) fn stretch(
    name: &mut Name,
    aside: &mut Vec<Side>,
    node: &Node,
) -> Result<Node, AllocError>
    requires named { name.old ≡ way_of aside.old.items }
    requires counted { is_counted node.now ≡ true }
    ensures named { IfOk result (λ _. name.new ≡ way_of aside.new.items) }
    ensures bare { IfOk result (λ _. all_bare aside.old.items ≡ true → all_bare aside.new.items ≡ true) }
    ensures over { IfOk result (λ n. stem_over aside.new.items (seen n) ≡ stem_over aside.old.items (seen node.now)) }
    ensures counted { IfOk result (λ n. is_counted n ≡ true) }
{
    if name.len() == 64 {
        return node.share();
    }
    let Some((bit, beside, on)) = step(node) else {
        return node.share();
    };
    let leaf = beside.share()?;
    aside.push(Side { bit, node: leaf })?;
    *name = child(name, bit);
    stretch(name, aside, on)
}

/// Goes down as long as exactly one half is a leaf without rows.
pub(crate) fn narrowed(name: Name, node: &Node) -> (Name, &Node)
    ensures narrows { Narrows name result.0 (seen node.now) (seen result.1.now) }
    ensures counted { is_counted node.now ≡ true → is_counted result.1.now ≡ true }
{
    if name.len() == 64 {
        return (name, node);
    }
    let Some((bit, _leaf, on)) = step(node) else {
        return (name, node);
    };
    narrowed(child(&name, bit), on)
}
