//! Adding, removing and moving rows in a trie that is changed in place.
//!
//! Each pair's count is written on the way down, so that the way down is a loop. A change that fails after that leaves
//! wrong counts, and the caller computes them again.
ghost use Rattle.std.specs.Prelude.{◌≡◌, ◌+◌, true, false, length, IfOk, OnOk, OnErr};
ghost use Rattle.std.specs.Arc.{arc_value};
ghost use Rattle.bucket_versions.specs.Rows.{has_row, after_gone};
ghost use Rattle.bucket_versions.specs.Told.{Told};
ghost use Rattle.kd_trie.specs.Nodes.{seen, is_counted};
ghost use Rattle.bit_trie.specs.Tries.{rows_in};
ghost use Rattle.bit_trie.specs.Ways.{Fits, has_under, put_under, gone_under, count_under, MayMove, once_if};

use crate::node::{Node, Pair, half};
use bit_trie::{Coming, Going, next_bit, pass_there, put_there, shift_there, take_there};
use bucket_versions::{Bucket, Commit, RowChange, Undone, own};
use std::sync::Arc;

/// Adds a row to the leaf to which the last `left` bits of its key lead, once the step has succeeded.
pub(crate) fn put_row<C: Commit>(node: &mut Node, to: &mut Coming, left: u8, commit: &mut C)
    requires can { C.can commit.old }
    requires fits { Fits left (seen node.old) }
    requires absent { has_under left to.old.change.row (seen node.old) ≡ false }
    requires counted { is_counted node.old ≡ true }
    ensures ok { OnOk to.new.ended (seen node.new ≡ put_under left to.old.change (seen node.old)) }
    ensures count { IfOk to.new.ended (λ n. n ≡ count_under left to.old.change.row (seen node.new)) }
    ensures err { OnErr to.new.ended (seen node.new ≡ seen node.old) }
    ensures counted { OnOk to.new.ended (is_counted node.new ≡ true) }
    ensures rows { rows_in (seen node.new) ≡ rows_in (seen node.old) + once_if to.new.ended }
    ensures told { Told C.done C.lost commit.old commit.new to.new.ended }
{
    match node {
        Node::Leaf(leaf) => put_there(leaf, to, commit),
        Node::Inner(pair) => {
            let Ok(pair) = own(pair) else {
                to.ended = Err(Undone::Memory);
                return;
            };
            let Some(more) = pair.count.checked_add(1) else {
                to.ended = Err(Undone::Memory);
                return;
            };
            pair.count = more;
            let half = half(pair, next_bit(to.change.row.key, left));
            put_row(half, to, left - 1, commit);
        }
    }
}

/// Removes a row from the leaf to which the last `left` bits of its key lead, once the step has succeeded.
pub(crate) fn take_row<C: Commit>(node: &mut Node, from: &mut Going, left: u8, commit: &mut C)
    requires can { C.can commit.old }
    requires fits { Fits left (seen node.old) }
    requires present { has_under left from.old.change.row (seen node.old) ≡ true }
    requires counted { is_counted node.old ≡ true }
    ensures ok { OnOk from.new.ended (seen node.new ≡ gone_under left from.old.change (seen node.old)) }
    ensures err { OnErr from.new.ended (seen node.new ≡ seen node.old) }
    ensures counted { OnOk from.new.ended (is_counted node.new ≡ true) }
    ensures rows { rows_in (seen node.new) + once_if from.new.ended ≡ rows_in (seen node.old) }
    ensures told { Told C.done C.lost commit.old commit.new from.new.ended }
{
    match node {
        Node::Leaf(leaf) => take_there(leaf, from, commit),
        Node::Inner(pair) => {
            let Ok(pair) = own(pair) else {
                from.ended = Err(Undone::Memory);
                return;
            };
            pair.count = pair.count.saturating_sub(1);
            let half = half(pair, next_bit(from.change.row.key, left));
            take_row(half, from, left - 1, commit);
        }
    }
}

/// Removes a row and adds another one, once the step has succeeded.
pub(crate) fn shift_row<C: Commit>(
    node: &mut Node,
    from: &RowChange,
    to: &mut Coming,
    left: u8,
    commit: &mut C,
)
    requires can { C.can commit.old }
    requires fits { Fits left (seen node.old) }
    requires rows { MayMove left from.now left to.old.change (seen node.old) (gone_under left from.now (seen node.old)) }
    requires counted { is_counted node.old ≡ true }
    ensures ok { OnOk to.new.ended (seen node.new ≡ put_under left to.old.change (gone_under left from.now (seen node.old))) }
    ensures count { IfOk to.new.ended (λ n. n ≡ count_under left to.old.change.row (seen node.new)) }
    ensures err { OnErr to.new.ended (seen node.new ≡ seen node.old) }
    ensures counted { OnOk to.new.ended (is_counted node.new ≡ true) }
    ensures rows { rows_in (seen node.new) ≡ rows_in (seen node.old) }
    ensures told { Told C.done C.lost commit.old commit.new to.new.ended }
{
    match node {
        Node::Leaf(leaf) => shift_there(leaf, from, to, commit),
        Node::Inner(pair) => {
            let Ok(pair) = own(pair) else {
                to.ended = Err(Undone::Memory);
                return;
            };
            let bit = next_bit(from.row.key, left);
            if bit == next_bit(to.change.row.key, left) {
                shift_row(half(pair, bit), from, to, left - 1, commit);
            } else {
                let Pair { zero, one, .. } = pair;
                if bit {
                    pass_row(one, from, left - 1, zero, to, left - 1, commit);
                } else {
                    pass_row(zero, from, left - 1, one, to, left - 1, commit);
                }
            }
        }
    }
}

// Removes a row from one node and adds one to another node.
fn pass_row<C: Commit>(
    node: &mut Node,
    from: &RowChange,
    left: u8,
    other: &mut Node,
    to: &mut Coming,
    other_left: u8,
    commit: &mut C,
)
    requires can { C.can commit.old }
    requires fits { Fits left (seen node.old) × Fits other_left (seen other.old) }
    requires rows { MayMove left from.now other_left to.old.change (seen node.old) (seen other.old) }
    requires counted { (is_counted node.old ≡ true) × (is_counted other.old ≡ true) }
    ensures ok { OnOk to.new.ended ((seen node.new ≡ gone_under left from.now (seen node.old))
        × (seen other.new ≡ put_under other_left to.old.change (seen other.old))) }
    ensures count { IfOk to.new.ended (λ n. n ≡ count_under other_left to.old.change.row (seen other.new)) }
    ensures err { OnErr to.new.ended ((seen node.new ≡ seen node.old) × (seen other.new ≡ seen other.old)) }
    ensures counted { OnOk to.new.ended (is_counted node.new ≡ true) }
    ensures rows { rows_in (seen node.new) + once_if to.new.ended ≡ rows_in (seen node.old) }
    ensures other_counted { OnOk to.new.ended (is_counted other.new ≡ true) }
    ensures other_rows { rows_in (seen other.new) ≡ rows_in (seen other.old) + once_if to.new.ended }
    ensures told { Told C.done C.lost commit.old commit.new to.new.ended }
{
    match node {
        Node::Leaf(leaf) => pass_on(leaf, from, other, to, other_left, commit),
        Node::Inner(pair) => {
            let Ok(pair) = own(pair) else {
                to.ended = Err(Undone::Memory);
                return;
            };
            pair.count = pair.count.saturating_sub(1);
            let half = half(pair, next_bit(from.row.key, left));
            pass_row(half, from, left - 1, other, to, other_left, commit);
        }
    }
}

// Removes a row from a leaf and adds one to a node.
fn pass_on<C: Commit>(
    leaf: &mut Arc<Bucket>,
    from: &RowChange,
    node: &mut Node,
    to: &mut Coming,
    left: u8,
    commit: &mut C,
)
    requires can { C.can commit.old }
    requires fits { Fits left (seen node.old) }
    requires rows { (has_row from.now.row (arc_value leaf.old).rows ≡ true) × (has_under left to.old.change.row (seen node.old) ≡ false) }
    requires counted { is_counted node.old ≡ true }
    ensures ok { OnOk to.new.ended ((arc_value leaf.new ≡ after_gone from.now (arc_value leaf.old))
        × (seen node.new ≡ put_under left to.old.change (seen node.old))) }
    ensures count { IfOk to.new.ended (λ n. n ≡ count_under left to.old.change.row (seen node.new)) }
    ensures err { OnErr to.new.ended ((arc_value leaf.new ≡ arc_value leaf.old) × (seen node.new ≡ seen node.old)) }
    ensures counted { OnOk to.new.ended (is_counted node.new ≡ true) }
    ensures rows { rows_in (seen node.new) ≡ rows_in (seen node.old) + once_if to.new.ended }
    ensures leaf { length (arc_value leaf.new).rows + once_if to.new.ended ≡ length (arc_value leaf.old).rows }
    ensures told { Told C.done C.lost commit.old commit.new to.new.ended }
{
    match node {
        Node::Leaf(other) => pass_there(leaf, from, other, to, commit),
        Node::Inner(pair) => {
            let Ok(pair) = own(pair) else {
                to.ended = Err(Undone::Memory);
                return;
            };
            let Some(more) = pair.count.checked_add(1) else {
                to.ended = Err(Undone::Memory);
                return;
            };
            pair.count = more;
            let half = half(pair, next_bit(to.change.row.key, left));
            pass_on(leaf, from, half, to, left - 1, commit);
        }
    }
}
