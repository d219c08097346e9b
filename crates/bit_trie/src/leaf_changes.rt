//! Changes of a leaf's bucket, with which each way down a trie ends.
//!
//! They are functions of their own, so that the compiler turns the recursion down a trie into a loop.
ghost use Rattle.std.specs.Prelude.{◌≡◌, ◌+◌, true, false, length, IfOk, OnOk, OnErr};
ghost use Rattle.std.specs.Arc.{arc_value};
ghost use Rattle.bucket_versions.specs.Rows.{has_row, without_row, after_put, after_gone};
ghost use Rattle.bucket_versions.specs.Told.{Told};
ghost use Rattle.bit_trie.specs.Ways.{once_if};

use crate::told::in_order;
use bucket_versions::{Bucket, Commit, RowChange, Undone, pass, put, shift, take};
use std::sync::Arc;

/// A row to remove, and the result.
///
/// The functions that go down to a leaf store their result here. If they returned it, the compiler could not turn them
/// into loops.
#[derive(Drop)]
pub struct Going {
    /// The row, and whether its bucket keeps its base.
    pub change: RowChange,
    /// Whether the row was removed. Until a leaf is reached, this is the value with which the struct was created.
    pub ended: Result<(), Undone>,
}

/// A row to add, and the result: the new number of rows in its leaf.
#[derive(Drop)]
pub struct Coming {
    /// The row, and whether its bucket keeps its base.
    pub change: RowChange,
    /// Whether the row was added. Until a leaf is reached, this is the value with which the struct was created.
    pub ended: Result<u64, Undone>,
}

/// Adds a row to a leaf's bucket, once the step has succeeded.
#[inline(never)]
pub fn put_there<C: Commit>(leaf: &mut Arc<Bucket>, to: &mut Coming, commit: &mut C)
    requires can { C.can commit.old }
    requires absent { has_row to.old.change.row (arc_value leaf.old).rows ≡ false }
    ensures ok { OnOk to.new.ended (arc_value leaf.new ≡ after_put to.old.change (arc_value leaf.old)) }
    ensures count { IfOk to.new.ended (λ n. n ≡ length (arc_value leaf.new).rows) }
    ensures err { OnErr to.new.ended (arc_value leaf.new ≡ arc_value leaf.old) }
    ensures more { length (arc_value leaf.new).rows ≡ length (arc_value leaf.old).rows + once_if to.new.ended }
    ensures told { Told C.done C.lost commit.old commit.new to.new.ended }
{
    to.ended = put(leaf, to.change, commit);
}

/// Removes a row from a leaf's bucket, once the step has succeeded.
#[inline(never)]
pub fn take_there<C: Commit>(leaf: &mut Arc<Bucket>, from: &mut Going, commit: &mut C)
    requires can { C.can commit.old }
    requires present { has_row from.old.change.row (arc_value leaf.old).rows ≡ true }
    ensures ok { OnOk from.new.ended (arc_value leaf.new ≡ after_gone from.old.change (arc_value leaf.old)) }
    ensures err { OnErr from.new.ended (arc_value leaf.new ≡ arc_value leaf.old) }
    ensures less { length (arc_value leaf.new).rows + once_if from.new.ended ≡ length (arc_value leaf.old).rows }
    ensures told { Told C.done C.lost commit.old commit.new from.new.ended }
{
    in_order(leaf);
    from.ended = take(leaf, from.change, commit);
}

/// Removes a row from a leaf's bucket and adds another one, once the step has succeeded.
#[inline(never)]
pub fn shift_there<C: Commit>(
    leaf: &mut Arc<Bucket>,
    from: &RowChange,
    to: &mut Coming,
    commit: &mut C,
)
    requires can { C.can commit.old }
    requires present { has_row from.now.row (arc_value leaf.old).rows ≡ true }
    requires absent { has_row to.old.change.row (without_row from.now.row (arc_value leaf.old).rows) ≡ false }
    ensures ok { OnOk to.new.ended (arc_value leaf.new ≡ after_put to.old.change (after_gone from.now (arc_value leaf.old))) }
    ensures count { IfOk to.new.ended (λ n. n ≡ length (arc_value leaf.new).rows) }
    ensures err { OnErr to.new.ended (arc_value leaf.new ≡ arc_value leaf.old) }
    ensures same { length (arc_value leaf.new).rows ≡ length (arc_value leaf.old).rows }
    ensures told { Told C.done C.lost commit.old commit.new to.new.ended }
{
    in_order(leaf);
    to.ended = shift(leaf, *from, to.change, commit);
}

/// Removes a row from a leaf's bucket and adds one to another leaf's bucket, once the step has succeeded.
#[inline(never)]
pub fn pass_there<C: Commit>(
    leaf: &mut Arc<Bucket>,
    from: &RowChange,
    other: &mut Arc<Bucket>,
    to: &mut Coming,
    commit: &mut C,
)
    requires can { C.can commit.old }
    requires rows { (has_row from.now.row (arc_value leaf.old).rows ≡ true)
        × (has_row to.old.change.row (arc_value other.old).rows ≡ false) }
    ensures ok { OnOk to.new.ended ((arc_value leaf.new ≡ after_gone from.now (arc_value leaf.old))
        × (arc_value other.new ≡ after_put to.old.change (arc_value other.old))) }
    ensures count { IfOk to.new.ended (λ n. n ≡ length (arc_value other.new).rows) }
    ensures err { OnErr to.new.ended ((arc_value leaf.new ≡ arc_value leaf.old) × (arc_value other.new ≡ arc_value other.old)) }
    ensures less { length (arc_value leaf.new).rows + once_if to.new.ended ≡ length (arc_value leaf.old).rows }
    ensures more { length (arc_value other.new).rows ≡ length (arc_value other.old).rows + once_if to.new.ended }
    ensures told { Told C.done C.lost commit.old commit.new to.new.ended }
{
    in_order(leaf);
    to.ended = pass(leaf, *from, other, to.change, commit);
}
