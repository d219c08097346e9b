//! A table: an index by key and a map by id that stand for one world.
ghost use Rattle.std.specs.Prelude.{◌≡◌, ℕ, ◌+◌, ◌-◌, ◌<◌, ◌≤◌, ◌∷◌, [], true, false, IfOk, OnOk, OnErr, MatchOption, length};
ghost use Rattle.std.specs.Arc.{arc_value};
ghost use Rattle.std.specs.List.{AllByRecursion};
ghost use Rattle.bucket_versions.specs.Told.{Told};
ghost use Rattle.bucket_versions.specs.Rows.{after_put};
ghost use Rattle.zorder.specs.declared.points.Point.{Point};
ghost use Rattle.plain_list.specs.World.{places_of, position_of, IsWorld, is_full};
ghost use Rattle.plain_list.specs.Answer.{answer_of, is_change};
ghost use Rattle.index_layer.specs.Leaves.{AreLeaves, names_of, has_name};
ghost use Rattle.index_layer.specs.RowChanges.{CountAt, Holds, ChangesAt, Moves};
ghost use Rattle.index_layer.specs.Stands.{HasRowsOf};
ghost use Rattle.point_table.specs.Changes.{KeepsAt, CanMove};
ghost use Rattle.point_table.specs.Crowded.{Reserves};
ghost use Rattle.point_table.specs.Crowds.{mark_under, left_under, MarksAt, MarksTwo};
ghost use Rattle.point_table.specs.Splits.{splits_of};
ghost use Rattle.point_table.specs.TableView.{first_over, HasBucket};
ghost use Rattle.point_table.specs.Updates.{IsUpdate, Updates, TellsIf};

mod anew;
mod built;
mod drafts;
mod net;
mod plans;
mod splits;

use crate::crowded::{Begun, Crowded, is_among, is_over};
pub use anew::leaf_names;
use bucket_versions::{Bucket, Commit, Row, RowChange, Undone};
pub use drafts::Draft;
use index_layer::{Index, Part};
use plain_list::{Answer, MOST_MEMBERS, MemberShards, Op, Stamped, World};
use std::alloc::Global;
use std::marker::Model;
use std::sync::Arc;
use zorder::{Memory, Name, begins, key};

/// Objects by id and by key.
#[derive(Drop)]
pub struct PointTable<I: Index> {
    alloc: Global,
    /// The objects by key.
    index: I,
    /// The objects by id, with their moments.
    members: MemberShards,
    /// The leaves over the bucket size. The first without an open split is split next.
    crowded: Crowded,
    /// The bucket size: a leaf with more rows than this is to be split.
    size: u32,
}

impl<I: Index> Model for PointTable<I> {
    ghost use Rattle.point_table.specs.TableView.{TableView};

    ghost Value = { TableView };

    ghost use Rattle.point_table.specs.IsTable.{IsTable, table_of};

    ghost view = { λ t. table_of I.leaves t };

    ghost invariant = { λ t. IsTable I.leaves I.WIDTH t };
}

impl<I: Index> PointTable<I> {
    /// A table without objects, with one leaf of the empty name. `size` is in rows.
    pub fn fresh(alloc: Global, size: u32) -> Result<PointTable<I>, Memory>
        ensures world { IfOk result (λ t. t.world ≡ []) }
        ensures leaves { IfOk result (λ t. names_of t.leaves ≡ [] ∷ []) }
        ensures size { IfOk result (λ t. t.size ≡ size) }
    {
        let bucket = Arc::new(alloc, Bucket::from_rows(alloc, &[])?)?;
        let index = I::whole(alloc, bucket)?;
        Ok(PointTable {
            alloc,
            index,
            members: MemberShards::new(alloc),
            crowded: Crowded::new(alloc),
            size,
        })
    }

    /// The leaf to split next: the first in key order that is over the size, has bits left and has no open split.
    pub fn first_free(&self, begun: &[Begun]) -> Option<Name>
        ensures { result ≡ first_over I.WIDTH (splits_of begun.now) self.now }
    {
        self.crowded.first_free(begun)
    }

    /// How many objects the table has. The other clauses state what holds of each table.
    pub fn len(&self) -> usize
        ensures len { result ≡ length self.now.world }
        ensures world { IsWorld self.now.world }
        ensures leaves { AreLeaves self.now.leaves }
        ensures rows { AllByRecursion (HasRowsOf (places_of self.now.world)) self.now.leaves }
    {
        self.members.len()
    }

    /// Copies the objects into one list.
    pub fn to_world(&self) -> Result<World, Memory>
        ensures { IfOk result (λ world. world ≡ self.now.world) }
    {
        Ok(self.members.to_world()?)
    }

    /// The names of the leaves, in key order.
    pub fn leaf_names(&self) -> Result<Vec<Name>, Memory>
        ensures { IfOk result (λ names. names.items ≡ names_of self.now.leaves) }
    {
        leaf_names(self.alloc, &self.index)
    }

    /// The stored position and moment of an object, or `None` if no object has the id.
    pub fn position(&self, id: u64) -> Option<Stamped>
        ensures { result ≡ position_of self.now.world id }
    {
        self.members.position(id)
    }

    /// Whether an operation would change the world. Finds and queries never do.
    pub fn would_change(&self, op: &Op) -> bool
        ensures { result ≡ is_change (answer_of self.now.world op.now) }
    {
        match *op {
            Op::Put { id, .. } => self.position(id).is_none() && !self.is_full(),
            Op::Move { id, moment, .. } => match self.position(id) {
                Some(kept) => kept.moment <= moment,
                None => false,
            },
            Op::Remove { id } => self.position(id).is_some(),
            Op::Find { .. } => false,
            Op::Within { .. } => false,
            Op::Near { .. } => false,
        }
    }

    /// Executes a change or a find while the splits in `begun` are open. The table changes only after `commit`
    /// succeeded, and a find calls no `commit`.
    #[tactic(auto, using(crate::proofs::Settled::settled_same))]
    pub fn update<C: Commit>(
        &mut self,
        op: &Op,
        begun: &[Begun],
        commit: &mut C,
    ) -> Result<Answer, Undone>
        requires update { IsUpdate op.now }
        requires can { is_change (answer_of self.old.world op.now) ≡ true → C.can commit.old }
        ensures ok { IfOk result (λ a. Updates (splits_of begun.now) self.old self.new op.now a) }
        ensures err { OnErr result (self.new ≡ self.old) }
        ensures told { TellsIf C.done C.lost (is_change (answer_of self.old.world op.now)) commit.old commit.new result }
    {
        match *op {
            Op::Put { id, at, moment } => self.put(id, Stamped { at, moment }, begun, commit),
            Op::Move { id, at, moment } => {
                self.relocate(id, Stamped { at, moment }, begun, commit)
            }
            Op::Remove { id } => self.remove(id, begun, commit),
            Op::Find { id } => Ok(self.find(id)),
            Op::Within { .. } => unreachable!(),
            Op::Near { .. } => unreachable!(),
        }
    }

    #[tactic(auto, using(crate::proofs::Settled::settled_same))]
    fn put<C: Commit>(
        &mut self,
        id: u64,
        to: Stamped,
        begun: &[Begun],
        commit: &mut C,
    ) -> Result<Answer, Undone>
        requires { is_change (answer_of self.old.world (Op.Put id to.at to.moment)) ≡ true → C.can commit.old }
        ensures ok { IfOk result (λ a. Updates (splits_of begun.now) self.old self.new (Op.Put id to.at to.moment) a) }
        ensures err { OnErr result (self.new ≡ self.old) }
        ensures told { TellsIf C.done C.lost (is_change (answer_of self.old.world
            (Op.Put id to.at to.moment))) commit.old commit.new result }
    {
        if self.is_full() {
            return Ok(self.full(id));
        }
        // The map is changed first, and changed back if the index refuses. So the id is looked up only once.
        if let Some(there) = self.members.insert(id, to)? {
            self.members.replace(id, there);
            return Ok(Answer::Present(there));
        }
        let row = Row {
            key: key(to.at),
            id,
        };
        let put = change(&self.index, begun, row);
        match put_row(&mut self.index, &mut self.crowded, put, commit) {
            Ok(count) => {
                mark_come(&mut self.crowded, &self.index, self.size, row.key, count);
                Ok(Answer::Done)
            }
            Err(undone) => {
                self.members.remove(id);
                Err(undone)
            }
        }
    }

    fn is_full(&self) -> bool
        ensures { result ≡ is_full self.now.world }
    {
        self.len() >= MOST_MEMBERS
    }

    // The answer to a put in a full world.
    fn full(&self, id: u64) -> Answer
        requires { is_full self.now.world ≡ true }
        ensures { (at : Point) (moment : ℕ) → result ≡ answer_of self.now.world (Op.Put id at moment) }
    {
        match self.position(id) {
            Some(kept) => Answer::Present(kept),
            None => Answer::Full,
        }
    }

    #[tactic(auto, using(crate::proofs::Settled::settled_same))]
    fn relocate<C: Commit>(
        &mut self,
        id: u64,
        to: Stamped,
        begun: &[Begun],
        commit: &mut C,
    ) -> Result<Answer, Undone>
        requires { is_change (answer_of self.old.world (Op.Move id to.at to.moment)) ≡ true → C.can commit.old }
        ensures ok { IfOk result (λ a. Updates (splits_of begun.now) self.old self.new (Op.Move id to.at to.moment) a) }
        ensures err { OnErr result (self.new ≡ self.old) }
        ensures told { TellsIf C.done C.lost (is_change (answer_of self.old.world
            (Op.Move id to.at to.moment))) commit.old commit.new result }
    {
        // The map is changed first, and changed back if the move is stale or fails. So the id is looked up only once if
        // it moves.
        let Some(old) = self.members.replace(id, to) else {
            return Ok(Answer::Absent);
        };
        if to.moment < old.moment {
            self.members.replace(id, old);
            return Ok(Answer::Stale(old));
        }
        if old.at == to.at {
            // The rows are unchanged, so the step is taken here and not by the index.
            if !commit.commit() {
                self.members.replace(id, old);
                return Err(Undone::Lost);
            }
            return Ok(Answer::Moved(old));
        }
        let from = Row {
            key: key(old.at),
            id,
        };
        let to = Row {
            key: key(to.at),
            id,
        };
        let gone = change(&self.index, begun, from);
        let put = change(&self.index, begun, to);
        match move_row(&mut self.index, &mut self.crowded, gone, put, commit) {
            Ok(count) => {
                let (from, to) = (from.key, to.key);
                mark_two(&mut self.crowded, &self.index, self.size, from, to, count);
                Ok(Answer::Moved(old))
            }
            Err(undone) => {
                self.members.replace(id, old);
                Err(undone)
            }
        }
    }

    #[tactic(auto, using(crate::proofs::Settled::settled_same))]
    fn remove<C: Commit>(
        &mut self,
        id: u64,
        begun: &[Begun],
        commit: &mut C,
    ) -> Result<Answer, Undone>
        requires { is_change (answer_of self.old.world (Op.Remove id)) ≡ true → C.can commit.old }
        ensures ok { IfOk result (λ a. Updates (splits_of begun.now) self.old self.new (Op.Remove id) a) }
        ensures err { OnErr result (self.new ≡ self.old) }
        ensures told { TellsIf C.done C.lost (is_change (answer_of self.old.world (Op.Remove id))) commit.old commit.new result }
    {
        let Some(old) = self.position(id) else {
            return Ok(Answer::Absent);
        };
        self.crowded.reserve(1)?;
        let row = Row {
            key: key(old.at),
            id,
        };
        let gone = change(&self.index, begun, row);
        self.index.take_row(gone, commit)?;
        self.members.remove(id);
        mark_left(&mut self.crowded, &self.index, self.size, row.key);
        Ok(Answer::Gone(old))
    }

    fn find(&self, id: u64) -> Answer
        ensures { result ≡ answer_of self.now.world (Op.Find id) }
    {
        match self.position(id) {
            Some(kept) => Answer::At(kept),
            None => Answer::Absent,
        }
    }

    /// An equal index. The other clauses state what holds of each table.
    pub fn share(&self) -> Result<I, Memory>
        ensures index { IfOk result (λ index. I.leaves index ≡ self.now.leaves) }
        ensures world { IsWorld self.now.world }
        ensures rows { AllByRecursion (HasRowsOf (places_of self.now.world)) self.now.leaves }
    {
        let _members = self.members.len();
        self.index.share()
    }

    /// Whether a leaf has this name.
    pub fn has_leaf(&self, name: &Name) -> bool
        ensures { result ≡ has_name name.now self.now.leaves }
    {
        matches!(self.index.part(name), Part::Leaf(_))
    }

    /// The bucket of the leaf with this name.
    pub fn bucket(&self, name: &Name) -> Option<&Arc<Bucket>>
        ensures { MatchOption result (has_name name.now self.now.leaves ≡ false) (λ b. HasBucket name.now self.now (arc_value b.now)) }
    {
        match self.index.part(name) {
            Part::Leaf(bucket) => Some(bucket),
            Part::Inner => None,
            Part::Outside => None,
        }
    }

    /// Gives up the table and keeps its index.
    pub fn into_index(self) -> I
        ensures { I.leaves result ≡ self.leaves }
    {
        self.index
    }
}

// A change of a row. It keeps the base of the row's leaf if a split of that leaf is open.
fn change<I: Index>(index: &I, begun: &[Begun], row: Row) -> RowChange
    ensures row { result.row ≡ row }
    ensures keeps { KeepsAt (splits_of begun.now) (I.leaves index.now) row.key result.keeps_base }
{
    // Usually no split is open, and then no leaf is looked up.
    if begun.is_empty() {
        return RowChange {
            row,
            keeps_base: false,
        };
    }
    let (name, _) = index.leaf_of(row.key);
    RowChange {
        row,
        keeps_base: is_among(begun, &name),
    }
}

// Inserts a row after there is room to mark its leaf and the step succeeded. Returns how many rows that leaf has then.
fn put_row<I: Index, C: Commit>(
    index: &mut I,
    crowded: &mut Crowded,
    put: RowChange,
    commit: &mut C,
) -> Result<u64, Undone>
    requires can { C.can commit.old }
    requires absent { Holds put.row (I.leaves index.old) false }
    ensures ok { OnOk result (ChangesAt put.row.key (after_put put) (I.leaves index.old) (I.leaves index.new)) }
    ensures count { IfOk result (λ n. CountAt put.row.key n (I.leaves index.new)) }
    ensures err { OnErr result (I.leaves index.new ≡ I.leaves index.old) }
    ensures told { Told C.done C.lost commit.old commit.new result }
    ensures crowded { Reserves 1 crowded.old crowded.new result }
{
    crowded.reserve(1)?;
    index.put_row(put, commit)
}

// Removes a row and inserts another one, after there is room to mark both leaves and the step succeeded. Returns how
// many rows the second row's leaf has then.
fn move_row<I: Index, C: Commit>(
    index: &mut I,
    crowded: &mut Crowded,
    gone: RowChange,
    put: RowChange,
    commit: &mut C,
) -> Result<u64, Undone>
    requires can { C.can commit.old }
    requires rows { CanMove gone.row put.row (I.leaves index.old) }
    ensures ok { OnOk result (Moves gone put (I.leaves index.old) (I.leaves index.new)) }
    ensures count { IfOk result (λ n. CountAt put.row.key n (I.leaves index.new)) }
    ensures err { OnErr result (I.leaves index.new ≡ I.leaves index.old) }
    ensures told { Told C.done C.lost commit.old commit.new result }
    ensures crowded { Reserves 2 crowded.old crowded.new result }
{
    crowded.reserve(2)?;
    index.move_row(gone, put, commit)
}

// Marks the leaf of a key: inserts its name if it is to be split, and removes it if not.
fn mark<I: Index>(crowded: &mut Crowded, index: &I, size: u32, key: u64)
    requires { 0 < crowded.old.room }
    ensures names { MarksAt key (I.leaves index.now) (λ l. mark_under I.WIDTH size l crowded.old.names) crowded.new.names }
    ensures room { crowded.new.room ≡ crowded.old.room - 1 }
{
    let (name, bucket) = index.leaf_of(key);
    let is_crowded = is_over(size, I::WIDTH, &name, bucket);
    crowded.set(&name, is_crowded);
}

// Marks a leaf that a row has left. If no leaf is marked, this one isn't crowded either, and is not looked up.
fn mark_left<I: Index>(crowded: &mut Crowded, index: &I, size: u32, key: u64)
    requires { 0 < crowded.old.room }
    ensures names { MarksAt key (I.leaves index.now) (λ l. left_under I.WIDTH size l crowded.old.names) crowded.new.names }
    ensures room { crowded.old.room ≤ crowded.new.room + 1 }
{
    if !crowded.is_empty() {
        mark(crowded, index, size, key);
    }
}

// Marks a leaf that got a row and has `count` rows now. If they are no more than the size and no leaf is marked, this
// one isn't crowded either, and is not looked up.
fn mark_come<I: Index>(crowded: &mut Crowded, index: &I, size: u32, key: u64, count: u64)
    requires room { 0 < crowded.old.room }
    requires count { CountAt key count (I.leaves index.now) }
    ensures { MarksAt key (I.leaves index.now) (λ l. mark_under I.WIDTH size l crowded.old.names) crowded.new.names }
{
    if !crowded.is_empty() || count > u64::from(size) {
        mark(crowded, index, size, key);
    }
}

// Marks the leaf that a row has left, and then the leaf that got it. If both are one leaf, it is marked once.
fn mark_two<I: Index>(crowded: &mut Crowded, index: &I, size: u32, from: u64, to: u64, count: u64)
    requires room { 2 ≤ crowded.old.room }
    requires count { CountAt to count (I.leaves index.now) }
    ensures { MarksTwo I.WIDTH size from to (I.leaves index.now) crowded.old.names crowded.new.names }
{
    if crowded.is_empty() && count <= u64::from(size) {
        return;
    }
    let (name, bucket) = index.leaf_of(to);
    let is_crowded = is_over(size, I::WIDTH, &name, bucket);
    if !begins(&name, from) {
        mark_left(crowded, index, size, from);
    }
    crowded.set(&name, is_crowded);
}
