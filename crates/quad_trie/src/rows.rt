//! Adding, removing and moving rows in a trie that is changed in place.
ghost use Rattle.std.specs.Prelude.{◌≡◌, true, false, IfOk, OnOk, OnErr};
ghost use Rattle.std.specs.Arc.{arc_value};
ghost use Rattle.bucket_versions.specs.Rows.{has_row, after_gone};
ghost use Rattle.bucket_versions.specs.Told.{Told};
ghost use Rattle.bit_trie.specs.Ways.{Fits, has_under, put_under, gone_under, count_under, MayMove};
ghost use Rattle.quad_trie.specs.Nodes.{seen, four, quarter_of};
ghost use Rattle.quad_trie.specs.Quarters.{go_together, with_node};

use crate::node::{Node, Quad, go_together, quarter_mut};
use bit_trie::{Coming, Going, next_bit, pass_there, put_there, shift_there, take_there};
use bucket_versions::{Bucket, Commit, RowChange, Undone, own};
use std::mem::replace;
use std::sync::Arc;

/// Adds a row to the leaf to which the last `left` bits of its key lead, once the step has succeeded.
pub(crate) fn put_row<C: Commit>(node: &mut Node, to: &mut Coming, left: u8, commit: &mut C)
    requires can { C.can commit.old }
    requires fits { Fits left (seen node.old) }
    requires absent { has_under left to.old.change.row (seen node.old) ≡ false }
    ensures ok { OnOk to.new.ended (seen node.new ≡ put_under left to.old.change (seen node.old)) }
    ensures count { IfOk to.new.ended (λ n. n ≡ count_under left to.old.change.row (seen node.new)) }
    ensures err { OnErr to.new.ended (seen node.new ≡ seen node.old) }
    ensures told { Told C.done C.lost commit.old commit.new to.new.ended }
{
    match node {
        Node::Leaf(leaf) => put_there(leaf, to, commit),
        Node::Inner(quad) => {
            let Ok(quad) = own(quad) else {
                to.ended = Err(Undone::Memory);
                return;
            };
            let high = next_bit(to.change.row.key, left);
            let low = next_bit(to.change.row.key, left - 1);
            put_row(quarter_mut(quad, high, low), to, left - 2, commit);
        }
    }
}

/// Removes a row from the leaf to which the last `left` bits of its key lead, once the step has succeeded.
pub(crate) fn take_row<C: Commit>(node: &mut Node, from: &mut Going, left: u8, commit: &mut C)
    requires can { C.can commit.old }
    requires fits { Fits left (seen node.old) }
    requires present { has_under left from.old.change.row (seen node.old) ≡ true }
    ensures ok { OnOk from.new.ended (seen node.new ≡ gone_under left from.old.change (seen node.old)) }
    ensures err { OnErr from.new.ended (seen node.new ≡ seen node.old) }
    ensures told { Told C.done C.lost commit.old commit.new from.new.ended }
{
    match node {
        Node::Leaf(leaf) => take_there(leaf, from, commit),
        Node::Inner(quad) => {
            let Ok(quad) = own(quad) else {
                from.ended = Err(Undone::Memory);
                return;
            };
            let high = next_bit(from.change.row.key, left);
            let low = next_bit(from.change.row.key, left - 1);
            take_row(quarter_mut(quad, high, low), from, left - 2, commit);
        }
    }
}

/// Removes a row and adds another one, once the step has succeeded.
pub(crate) fn shift_row<C: Commit>(
    node: &mut Node,
    from: &RowChange,
    to: &mut Coming,
    left: u8,
    commit: &mut C,
)
    requires can { C.can commit.old }
    requires fits { Fits left (seen node.old) }
    requires rows { MayMove left from.now left to.old.change (seen node.old) (gone_under left from.now (seen node.old)) }
    ensures ok { OnOk to.new.ended (seen node.new ≡ put_under left to.old.change (gone_under left from.now (seen node.old))) }
    ensures count { IfOk to.new.ended (λ n. n ≡ count_under left to.old.change.row (seen node.new)) }
    ensures err { OnErr to.new.ended (seen node.new ≡ seen node.old) }
    ensures told { Told C.done C.lost commit.old commit.new to.new.ended }
{
    match node {
        Node::Leaf(leaf) => shift_there(leaf, from, to, commit),
        Node::Inner(quad) => {
            let Ok(quad) = own(quad) else {
                to.ended = Err(Undone::Memory);
                return;
            };
            if go_together(from.row.key, to.change.row.key, left) {
                let high = next_bit(from.row.key, left);
                let low = next_bit(from.row.key, left - 1);
                shift_row(quarter_mut(quad, high, low), from, to, left - 2, commit);
            } else {
                pass_across(quad, from, to, left, commit);
            }
        }
    }
}

// Removes a row from one quarter and adds one to another. Meanwhile the first quarter is moved out, so that the
// function can write to both. A share of a third quarter takes its place.
#[inline(never)]
fn pass_across<C: Commit>(
    quad: &mut Quad,
    from: &RowChange,
    to: &mut Coming,
    left: u8,
    commit: &mut C,
)
    requires can { C.can commit.old }
    requires fits { Fits left (four quad.old) }
    requires apart { go_together left from.now.row.key to.old.change.row.key ≡ false }
    requires rows { MayMove left from.now left to.old.change (four quad.old) (gone_under left from.now (four quad.old)) }
    ensures ok { OnOk to.new.ended (four quad.new ≡ put_under left to.old.change (gone_under left from.now (four quad.old))) }
    ensures count { IfOk to.new.ended (λ n. n ≡ count_under left to.old.change.row (four quad.new)) }
    ensures err { OnErr to.new.ended (four quad.new ≡ four quad.old) }
    ensures told { Told C.done C.lost commit.old commit.new to.new.ended }
{
    let high = next_bit(from.row.key, left);
    let low = next_bit(from.row.key, left - 1);
    let to_high = next_bit(to.change.row.key, left);
    let to_low = next_bit(to.change.row.key, left - 1);
    let (third_high, third_low) = if high == to_high {
        (!high, low)
    } else {
        (high, !low)
    };
    let Ok(third) = quad.quarter(third_high, third_low).share() else {
        to.ended = Err(Undone::Memory);
        return;
    };
    let mut aside = replace_quarter(quad, high, low, third);
    let other = quarter_mut(quad, to_high, to_low);
    pass_row(&mut aside, from, left - 2, other, to, left - 2, commit);
    replace_quarter(quad, high, low, aside);
}

// Replaces a quarter by a node, and returns the old one.
fn replace_quarter(quad: &mut Quad, high: bool, low: bool, node: Node) -> Node
    ensures old { seen result ≡ quarter_of quad.old high low }
    ensures new { quad.new ≡ with_node quad.old high low node }
{
    replace(quarter_mut(quad, high, low), node)
}

// Removes a row from one node and adds one to another node.
fn pass_row<C: Commit>(
    node: &mut Node,
    from: &RowChange,
    left: u8,
    other: &mut Node,
    to: &mut Coming,
    other_left: u8,
    commit: &mut C,
)
    requires can { C.can commit.old }
    requires fits { Fits left (seen node.old) × Fits other_left (seen other.old) }
    requires rows { MayMove left from.now other_left to.old.change (seen node.old) (seen other.old) }
    ensures ok { OnOk to.new.ended ((seen node.new ≡ gone_under left from.now (seen node.old))
        × (seen other.new ≡ put_under other_left to.old.change (seen other.old))) }
    ensures count { IfOk to.new.ended (λ n. n ≡ count_under other_left to.old.change.row (seen other.new)) }
    ensures err { OnErr to.new.ended ((seen node.new ≡ seen node.old) × (seen other.new ≡ seen other.old)) }
    ensures told { Told C.done C.lost commit.old commit.new to.new.ended }
{
    match node {
        Node::Leaf(leaf) => pass_on(leaf, from, other, to, other_left, commit),
        Node::Inner(quad) => {
            let Ok(quad) = own(quad) else {
                to.ended = Err(Undone::Memory);
                return;
            };
            let high = next_bit(from.row.key, left);
            let low = next_bit(from.row.key, left - 1);
            let quarter = quarter_mut(quad, high, low);
            pass_row(quarter, from, left - 2, other, to, other_left, commit);
        }
    }
}

// Removes a row from a leaf and adds one to a node.
fn pass_on<C: Commit>(
    leaf: &mut Arc<Bucket>,
    from: &RowChange,
    node: &mut Node,
    to: &mut Coming,
    left: u8,
    commit: &mut C,
)
    requires can { C.can commit.old }
    requires fits { Fits left (seen node.old) }
    requires rows { (has_row from.now.row (arc_value leaf.old).rows ≡ true) × (has_under left to.old.change.row (seen node.old) ≡ false) }
    ensures ok { OnOk to.new.ended ((arc_value leaf.new ≡ after_gone from.now (arc_value leaf.old))
        × (seen node.new ≡ put_under left to.old.change (seen node.old))) }
    ensures count { IfOk to.new.ended (λ n. n ≡ count_under left to.old.change.row (seen node.new)) }
    ensures err { OnErr to.new.ended ((arc_value leaf.new ≡ arc_value leaf.old) × (seen node.new ≡ seen node.old)) }
    ensures told { Told C.done C.lost commit.old commit.new to.new.ended }
{
    match node {
        Node::Leaf(other) => pass_there(leaf, from, other, to, commit),
        Node::Inner(quad) => {
            let Ok(quad) = own(quad) else {
                to.ended = Err(Undone::Memory);
                return;
            };
            let high = next_bit(to.change.row.key, left);
            let low = next_bit(to.change.row.key, left - 1);
            let quarter = quarter_mut(quad, high, low);
            pass_on(leaf, from, quarter, to, left - 2, commit);
        }
    }
}
