//! The nodes of the trie: a leaf's bucket, or two halves.
ghost use Rattle.std.specs.Prelude.{◌≡◌, ◌≤◌, ◌+◌, ◌-◌, ◌^◌, min, Some, true, length, IfOk, IfSome, OnOk, OnErr};
ghost use Rattle.std.specs.Arc.{arc_value};
ghost use Rattle.std.specs.Borrow.{sem};
ghost use Rattle.zorder.specs.Bits.{low_bits};
ghost use Rattle.bit_trie.specs.Tries.{name_at, bucket_at, graft, rows_in};
ghost use Rattle.kd_trie.specs.Nodes.{seen, is_counted, Copies, twins};
ghost use Rattle.kd_trie.specs.Halves.{LendsHalf, half_of, half_counts};
ghost use Rattle.bit_trie.specs.Ways.{Fits};
ghost use Rattle.bit_trie.specs.Walks.{Agrees};
ghost use Rattle.bucket_versions.specs.Told.{Told};

use bit_trie::next_bit;
use bucket_versions::{Bucket, Commit, Undone, own};
use std::alloc::{AllocError, Global};
use std::sync::Arc;

/// A leaf's bucket, or the two nodes for the next bit.
#[derive(Drop)]
#[cycle(trie)]
pub enum Node {
    Leaf(Arc<Bucket>),
    Inner(Arc<Pair>),
}

/// The nodes for the next bit 0 and 1, and the number of rows below both.
#[derive(Drop)]
#[cycle(trie)]
pub struct Pair {
    pub(crate) zero: Node,
    pub(crate) one: Node,
    pub(crate) count: u64,
}

impl Node {
    /// Returns an equal node, which shares all nodes below.
    pub(crate) fn share(&self) -> Result<Node, AllocError>
        ensures { IfOk result (λ n. (seen n ≡ seen self.now) × (is_counted n ≡ is_counted self.now)) }
    {
        match self {
            Node::Leaf(bucket) => Ok(Node::Leaf(Arc::try_clone(bucket)?)),
            Node::Inner(pair) => Ok(Node::Inner(Arc::try_clone(pair)?)),
        }
    }

    /// Returns the number of rows below the node, as stored.
    pub(crate) fn count(&self) -> u64
        requires { is_counted self.now ≡ true }
        ensures { result ≡ rows_in (seen self.now) }
    {
        match self {
            Node::Leaf(bucket) => bucket.count(),
            Node::Inner(pair) => pair.count,
        }
    }
}

impl Clone for Pair {
    ghost is_clone = { λ pair copy. Copies pair copy };

    // Copies the pair, for a caller that changes the copy. The nodes below are shared.
    fn clone(&self) -> Result<Pair, AllocError> {
        let zero = self.zero.share()?;
        let one = self.one.share()?;
        Ok(Pair {
            zero,
            one,
            count: self.count,
        })
    }
}

// Returns the half of a pair for a bit, to write to.
#[inline(always)]
pub(crate) fn half(pair: &mut Pair, bit: bool) -> &mut Node
    ensures* lends { sem 𝓛 (LendsHalf pair.entry bit result) }
    ensures half { seen result.now ≡ half_of pair.old bit }
    ensures counted { is_counted result.now ≡ half_counts pair.old bit }
{
    if bit { &mut pair.one } else { &mut pair.zero }
}

/// Replaces the leaf to which the last `left` bits of a key lead by a node, once the step has succeeded.
pub(crate) fn graft<C: Commit>(
    node: &mut Node,
    key: u64,
    left: u8,
    part: Node,
    gain: u64,
    commit: &mut C,
) -> Result<(), Undone>
    requires can { C.can commit.old }
    requires fits { Fits left (seen node.old) }
    requires counted { (is_counted node.old ≡ true) × (is_counted part ≡ true) }
    requires gain { gain ≡ rows_in (seen part) }
    ensures ok { OnOk result (seen node.new ≡ graft (low_bits left key) (seen part) (seen node.old)) }
    ensures counted { is_counted node.new ≡ true }
    ensures err { OnErr result (seen node.new ≡ seen node.old) }
    ensures told { Told C.done C.lost commit.old commit.new result }
{
    match node {
        Node::Leaf(_) => {
            if !commit.commit() {
                return Err(Undone::Lost);
            }
            *node = part;
            Ok(())
        }
        Node::Inner(pair) => {
            let pair = own(pair)?;
            let Some(_most) = pair.count.checked_add(gain) else {
                return Err(Undone::Memory);
            };
            let half = half(pair, next_bit(key, left));
            let done = graft(half, key, left - 1, part, gain, commit);
            pair.count = pair.zero.count() + pair.one.count();
            done
        }
    }
}

/// Adds up the rows of all leaves, at most 2^64 - 1, without the stored counts.
pub(crate) fn tally(node: &Node) -> u64
    ensures { result ≡ min (rows_in (seen node.now)) (2 ^ 64 - 1) }
{
    match node {
        Node::Leaf(bucket) => bucket.count(),
        Node::Inner(pair) => tally(&pair.zero).saturating_add(tally(&pair.one)),
    }
}

// Returns the number of rows, if the counts of all pairs are right.
fn told(node: &Node) -> Option<u64>
    ensures { IfSome result (λ n. (is_counted node.now ≡ true) × (n ≡ rows_in (seen node.now))) }
{
    match node {
        Node::Leaf(bucket) => Some(bucket.count()),
        Node::Inner(pair) => {
            let zero = told(&pair.zero)?;
            let one = told(&pair.one)?;
            let count = zero.checked_add(one)?;
            if count == pair.count {
                Some(count)
            } else {
                None
            }
        }
    }
}

/// Returns an equal node with right counts. It shares what already has right counts below.
pub(crate) fn recounted(alloc: Global, node: &Node) -> Result<Node, AllocError>
    ensures { IfOk result (λ n. (seen n ≡ seen node.now) × (is_counted n ≡ true)) }
{
    if told(node).is_some() {
        return node.share();
    }
    match node {
        Node::Leaf(_) => node.share(),
        Node::Inner(pair) => {
            let zero = recounted(alloc, &pair.zero)?;
            let one = recounted(alloc, &pair.one)?;
            let count = zero.count().checked_add(one.count()).ok_or(AllocError)?;
            Ok(Node::Inner(Arc::new(alloc, Pair { zero, one, count })?))
        }
    }
}

/// Returns a node with two leaves.
pub(crate) fn twins(alloc: Global, zero: Arc<Bucket>, one: Arc<Bucket>) -> Result<Node, AllocError>
    ensures { IfOk result (λ node. (seen node ≡ twins (arc_value zero) (arc_value one)) × (is_counted node ≡ true)) }
{
    let count = zero.count().checked_add(one.count()).ok_or(AllocError)?;
    let pair = Pair {
        zero: Node::Leaf(zero),
        one: Node::Leaf(one),
        count,
    };
    Ok(Node::Inner(Arc::new(alloc, pair)?))
}

/// Returns the bucket to which the last `left` bits of a key lead, and how many bits are left at its leaf.
pub(crate) fn leaf_of(node: &Node, key: u64, left: u8) -> (u8, &Arc<Bucket>)
    requires fits { Fits left (seen node.now) }
    ensures bucket { bucket_at (low_bits left key) (seen node.now) ≡ Some (arc_value result.1.now) }
    ensures left { result.0 + length (name_at (low_bits left key) (seen node.now)) ≡ left }
{
    match node {
        Node::Leaf(bucket) => (left, bucket),
        Node::Inner(pair) => {
            if next_bit(key, left) {
                leaf_of(&pair.one, key, left - 1)
            } else {
                leaf_of(&pair.zero, key, left - 1)
            }
        }
    }
}

/// Goes down as long as the next bits of two keys are the same. Returns how many bits are left at the node, and the
/// node.
pub(crate) fn agreed(node: &Node, from: u64, to: u64, left: u8) -> (u8, &Node)
    requires fits { Fits left (seen node.now) }
    ensures agrees { Agrees from to left result.0 (seen node.now) (seen result.1.now) }
    ensures counted { is_counted node.now ≡ true → is_counted result.1.now ≡ true }
    ensures rest { result.0 ≤ left }
{
    let Node::Inner(pair) = node else {
        return (left, node);
    };
    if next_bit(from, left) {
        if next_bit(to, left) {
            agreed(&pair.one, from, to, left - 1)
        } else {
            (left, node)
        }
    } else if next_bit(to, left) {
        (left, node)
    } else {
        agreed(&pair.zero, from, to, left - 1)
    }
}
