//! The nodes of the trie: a leaf's bucket, or four children.
ghost use Rattle.std.specs.Prelude.{◌≡◌, ◌≤◌, ◌<◌, ◌+◌, ◌-◌, ◌^◌, ◌%◌, false, true, min, Some, length, IfOk, OnOk, OnErr};
ghost use Rattle.std.specs.Arc.{arc_value};
ghost use Rattle.std.specs.Borrow.{sem};
ghost use Rattle.zorder.specs.Bits.{low_bits};
ghost use Rattle.bucket_versions.specs.Told.{Told};
ghost use Rattle.bit_trie.specs.Tries.{name_at, bucket_at, rows_in, graft};
ghost use Rattle.bit_trie.specs.Ways.{Fits};
ghost use Rattle.bit_trie.specs.Walks.{Agrees};
ghost use Rattle.quad_trie.specs.Nodes.{seen, four, fours, quarter_of};
ghost use Rattle.quad_trie.specs.Quarters.{LendsQuarter, go_together};

use bit_trie::next_bit;
use bucket_versions::{Bucket, Commit, Undone, own};
use std::alloc::{AllocError, Global};
use std::sync::Arc;

/// A leaf's bucket, or the four nodes for the next two bits.
#[derive(Drop)]
#[cycle(trie)]
pub enum Node {
    Leaf(Arc<Bucket>),
    Inner(Arc<Quad>),
}

/// The nodes for the next bits 00, 01, 10 and 11.
#[derive(Drop)]
#[cycle(trie)]
pub struct Quad {
    pub(crate) zero_zero: Node,
    pub(crate) zero_one: Node,
    pub(crate) one_zero: Node,
    pub(crate) one_one: Node,
}

impl Node {
    /// Returns an equal node, which shares all nodes below.
    pub(crate) fn share(&self) -> Result<Node, AllocError>
        ensures { IfOk result (λ n. seen n ≡ seen self.now) }
    {
        match self {
            Node::Leaf(bucket) => Ok(Node::Leaf(Arc::try_clone(bucket)?)),
            Node::Inner(quad) => Ok(Node::Inner(Arc::try_clone(quad)?)),
        }
    }
}

impl Quad {
    /// Returns the quarter for two bits.
    pub(crate) fn quarter(&self, high: bool, low: bool) -> &Node
        ensures { seen result.now ≡ quarter_of self.now high low }
    {
        match (high, low) {
            (false, false) => &self.zero_zero,
            (false, true) => &self.zero_one,
            (true, false) => &self.one_zero,
            (true, true) => &self.one_one,
        }
    }

    /// Returns the number of rows in the two quarters of a bit, at most 2^64 - 1.
    pub(crate) fn count_half(&self, high: bool) -> u64
        ensures { result ≡ min (rows_in (quarter_of self.now high false) + rows_in (quarter_of self.now high true)) (2 ^ 64 - 1) }
    {
        let zero = count(self.quarter(high, false));
        let one = count(self.quarter(high, true));
        zero.saturating_add(one)
    }
}

impl Clone for Quad {
    ghost is_clone = { λ quad copy. four copy ≡ four quad };

    // Copies the node, for a caller that changes the copy. The nodes below are shared.
    fn clone(&self) -> Result<Quad, AllocError> {
        let zero_zero = self.zero_zero.share()?;
        let zero_one = self.zero_one.share()?;
        let one_zero = self.one_zero.share()?;
        let one_one = self.one_one.share()?;
        Ok(Quad {
            zero_zero,
            zero_one,
            one_zero,
            one_one,
        })
    }
}

/// Returns whether the next two bits of two keys are the same.
pub(crate) fn go_together(from: u64, to: u64, left: u8) -> bool
    requires some { 1 < left }
    requires most { left ≤ 64 }
    ensures { result ≡ go_together left from to }
{
    let high = next_bit(from, left) == next_bit(to, left);
    let low = next_bit(from, left - 1) == next_bit(to, left - 1);
    high && low
}

// Returns the quarter for two bits, to write to.
#[inline(always)]
pub(crate) fn quarter_mut(quad: &mut Quad, high: bool, low: bool) -> &mut Node
    ensures* lends { sem 𝓛 (LendsQuarter quad.entry high low result) }
    ensures quarter { seen result.now ≡ quarter_of quad.old high low }
{
    if high {
        if low {
            &mut quad.one_one
        } else {
            &mut quad.one_zero
        }
    } else {
        if low {
            &mut quad.zero_one
        } else {
            &mut quad.zero_zero
        }
    }
}

/// Replaces the leaf to which the last `left` bits of a key lead by a node, once the step has succeeded.
pub(crate) fn graft<C: Commit>(
    node: &mut Node,
    key: u64,
    left: u8,
    part: Node,
    commit: &mut C,
) -> Result<(), Undone>
    requires can { C.can commit.old }
    requires fits { Fits left (seen node.old) }
    ensures ok { OnOk result (seen node.new ≡ graft (low_bits left key) (seen part) (seen node.old)) }
    ensures err { OnErr result (seen node.new ≡ seen node.old) }
    ensures told { Told C.done C.lost commit.old commit.new result }
{
    match node {
        Node::Leaf(_) => {
            if !commit.commit() {
                return Err(Undone::Lost);
            }
            *node = part;
            Ok(())
        }
        Node::Inner(quad) => {
            let quad = own(quad)?;
            let high = next_bit(key, left);
            let low = next_bit(key, left - 1);
            graft(quarter_mut(quad, high, low), key, left - 2, part, commit)
        }
    }
}

/// Returns a node with four leaves.
pub(crate) fn fours(
    alloc: Global,
    first: Arc<Bucket>,
    second: Arc<Bucket>,
    third: Arc<Bucket>,
    fourth: Arc<Bucket>,
) -> Result<Node, AllocError>
    ensures { IfOk result (λ node. seen node ≡ fours (arc_value first) (arc_value second) (arc_value third) (arc_value fourth)) }
{
    let quad = Quad {
        zero_zero: Node::Leaf(first),
        zero_one: Node::Leaf(second),
        one_zero: Node::Leaf(third),
        one_one: Node::Leaf(fourth),
    };
    Ok(Node::Inner(Arc::new(alloc, quad)?))
}

/// Returns the number of rows below a node, at most 2^64 - 1.
pub(crate) fn count(node: &Node) -> u64
    ensures { result ≡ min (rows_in (seen node.now)) (2 ^ 64 - 1) }
{
    let quad = match node {
        Node::Leaf(bucket) => return bucket.count(),
        Node::Inner(quad) => quad,
    };
    let zero = count(&quad.zero_zero).saturating_add(count(&quad.zero_one));
    let one = count(&quad.one_zero).saturating_add(count(&quad.one_one));
    zero.saturating_add(one)
}

/// Returns the bucket to which the last `left` bits of a key lead, and how many bits are left at its leaf.
pub(crate) fn leaf_of(node: &Node, key: u64, left: u8) -> (u8, &Arc<Bucket>)
    requires fits { Fits left (seen node.now) }
    ensures bucket { bucket_at (low_bits left key) (seen node.now) ≡ Some (arc_value result.1.now) }
    ensures left { result.0 + length (name_at (low_bits left key) (seen node.now)) ≡ left }
{
    match node {
        Node::Leaf(bucket) => (left, bucket),
        Node::Inner(quad) => {
            let high = next_bit(key, left);
            let low = next_bit(key, left - 1);
            leaf_of(quad.quarter(high, low), key, left - 2)
        }
    }
}

/// Goes down as long as the next two bits of two keys are the same. Returns how many bits are left at the node, and the
/// node.
pub(crate) fn agreed(node: &Node, from: u64, to: u64, left: u8) -> (u8, &Node)
    requires fits { Fits left (seen node.now) }
    ensures agrees { Agrees from to left result.0 (seen node.now) (seen result.1.now) }
    ensures rest { result.0 ≤ left }
    ensures even { result.0 % 2 ≡ left % 2 }
{
    let Node::Inner(quad) = node else {
        return (left, node);
    };
    if go_together(from, to, left) {
        let high = next_bit(from, left);
        let low = next_bit(from, left - 1);
        agreed(quad.quarter(high, low), from, to, left - 2)
    } else {
        (left, node)
    }
}
