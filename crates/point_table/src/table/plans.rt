//! The steps of a draft: each operation of a batch is answered at its place, and its change is planned.
ghost use Rattle.std.specs.Prelude.{◌≡◌, Ok, IfOk, OnOk, List};
ghost use Rattle.std.specs.List.{AllByRecursion};
ghost use Rattle.plain_list.specs.World.{position_of};
ghost use Rattle.plain_list.specs.Answer.{answer_of};
ghost use Rattle.plain_list.specs.State.{OpenSplit};
ghost use Rattle.point_table.specs.Drafts.{after_net, LeavesAt, Planned};
ghost use Rattle.point_table.specs.Plans.{plan_of, IsFresh, IsNext, IsWhole};
ghost use Rattle.point_table.specs.Splits.{splits_of};
ghost use Rattle.point_table.specs.Updates.{IsUpdate};

use crate::crowded::{Begun, Crowded};
use crate::table::{PointTable, change, mark_come, mark_left, mark_two, move_row, put_row};
use bucket_versions::{AtOnce, Row, Undone};
use index_layer::Index;
use plain_list::{Answer, MOST_MEMBERS, Op, Stamped};
use std::alloc::AllocError;
use std::collections::BTreeMap;
use zorder::{Memory, coordinates_fit, key};

/// What some operations of a batch leave of a table. Its index shares memory with the table's.
#[derive(Drop)]
pub(super) struct Plan<I: Index> {
    /// The position of each id that the operations changed, or `None` if the object is gone.
    pub(super) left: BTreeMap<u64, Option<Stamped>>,
    /// How many objects there are.
    pub(super) len: usize,
    pub(super) index: I,
    pub(super) crowded: Crowded,
}

impl<I: Index> PointTable<I> {
    // The answers to the operations of a batch, each at its place.
    pub(super) fn answers(
        &self,
        plan: &mut Plan<I>,
        ops: &[Op],
        begun: &[Begun],
    ) -> Result<Vec<Answer>, Memory>
        requires updates { AllByRecursion IsUpdate ops.now }
        requires planned { Planned I.WIDTH (splits_of begun.now) self.now (plan_of I.leaves plan.old) }
        requires fresh { IsFresh self.now (plan_of I.leaves plan.old) }
        ensures { IfOk result (λ answers. IsWhole I.leaves I.WIDTH begun.now self.now ops.now plan.new answers.items) }
    {
        let mut answers = Vec::new(self.alloc);
        for op in ops {
            answers.push(or_memory(self.answer(plan, op, begun))?)?;
        }
        Ok(answers)
    }

    // A plan before the first operation.
    pub(super) fn plan(&self) -> Result<Plan<I>, Memory>
        ensures planned { (splits : List OpenSplit) → IfOk result (λ plan. Planned I.WIDTH splits self.now (plan_of I.leaves plan)) }
        ensures fresh { IfOk result (λ plan. IsFresh self.now (plan_of I.leaves plan)) }
    {
        Ok(Plan {
            left: BTreeMap::new(self.alloc),
            len: self.members.len(),
            index: self.index.share()?,
            crowded: self.crowded.copy(self.alloc)?,
        })
    }

    // Answers one operation and plans its change.
    fn answer(&self, plan: &mut Plan<I>, op: &Op, begun: &[Begun]) -> Result<Answer, Undone>
        requires update { IsUpdate op.now }
        requires planned { Planned I.WIDTH (splits_of begun.now) self.now (plan_of I.leaves plan.old) }
        ensures { IfOk result (λ a. IsNext I.leaves I.WIDTH begun.now self.now op.now plan.old plan.new a) }
    {
        match *op {
            Op::Put { id, at, moment } => self.plan_put(plan, id, Stamped { at, moment }, begun),
            Op::Move { id, at, moment } => self.plan_move(plan, id, Stamped { at, moment }, begun),
            Op::Remove { id } => self.plan_remove(plan, id, begun),
            Op::Find { id } => Ok(self.found(plan, id)),
            Op::Within { .. } => unreachable!(),
            Op::Near { .. } => unreachable!(),
        }
    }

    // The position of an object after the planned changes.
    fn left(&self, plan: &Plan<I>, id: u64) -> Option<Stamped>
        ensures { result ≡ position_of (after_net plan.now.left.entries self.now.world) id }
    {
        match plan.left.get(&id) {
            Some(left) => *left,
            None => self.position(id),
        }
    }

    fn found(&self, plan: &Plan<I>, id: u64) -> Answer
        ensures { result ≡ answer_of (after_net plan.now.left.entries self.now.world) (Op.Find id) }
    {
        match self.left(plan, id) {
            Some(kept) => Answer::At(kept),
            None => Answer::Absent,
        }
    }

    fn plan_put(
        &self,
        plan: &mut Plan<I>,
        id: u64,
        to: Stamped,
        begun: &[Begun],
    ) -> Result<Answer, Undone>
        requires { Planned I.WIDTH (splits_of begun.now) self.now (plan_of I.leaves plan.old) }
        ensures { IfOk result (λ a. IsNext I.leaves I.WIDTH begun.now self.now (Op.Put id to.at to.moment) plan.old plan.new a) }
    {
        if let Some(there) = self.left(plan, id) {
            return Ok(Answer::Present(there));
        }
        if plan.len >= MOST_MEMBERS {
            return Ok(Answer::Full);
        }
        coordinates_fit(to.at);
        let row = Row {
            key: key(to.at),
            id,
        };
        let put = change(&plan.index, begun, row);
        let count = put_row(&mut plan.index, &mut plan.crowded, put, &mut AtOnce)?;
        mark_come(&mut plan.crowded, &plan.index, self.size, row.key, count);
        leave(&mut plan.left, id, Some(to))?;
        plan.len += 1;
        Ok(Answer::Done)
    }

    fn plan_move(
        &self,
        plan: &mut Plan<I>,
        id: u64,
        to: Stamped,
        begun: &[Begun],
    ) -> Result<Answer, Undone>
        requires { Planned I.WIDTH (splits_of begun.now) self.now (plan_of I.leaves plan.old) }
        ensures { IfOk result (λ a. IsNext I.leaves I.WIDTH begun.now self.now (Op.Move id to.at to.moment) plan.old plan.new a) }
    {
        let Some(old) = self.left(plan, id) else {
            return Ok(Answer::Absent);
        };
        if to.moment < old.moment {
            return Ok(Answer::Stale(old));
        }
        coordinates_fit(to.at);
        if old.at == to.at {
            // The rows are unchanged.
            leave(&mut plan.left, id, Some(to))?;
            return Ok(Answer::Moved(old));
        }
        let from = Row {
            key: key(old.at),
            id,
        };
        let onto = Row {
            key: key(to.at),
            id,
        };
        let gone = change(&plan.index, begun, from);
        let put = change(&plan.index, begun, onto);
        let count = move_row(&mut plan.index, &mut plan.crowded, gone, put, &mut AtOnce)?;
        mark_two(
            &mut plan.crowded,
            &plan.index,
            self.size,
            from.key,
            onto.key,
            count,
        );
        leave(&mut plan.left, id, Some(to))?;
        Ok(Answer::Moved(old))
    }

    fn plan_remove(&self, plan: &mut Plan<I>, id: u64, begun: &[Begun]) -> Result<Answer, Undone>
        requires { Planned I.WIDTH (splits_of begun.now) self.now (plan_of I.leaves plan.old) }
        ensures { IfOk result (λ a. IsNext I.leaves I.WIDTH begun.now self.now (Op.Remove id) plan.old plan.new a) }
    {
        let Some(old) = self.left(plan, id) else {
            return Ok(Answer::Absent);
        };
        plan.crowded.reserve(1)?;
        let row = Row {
            key: key(old.at),
            id,
        };
        let gone = change(&plan.index, begun, row);
        plan.index.take_row(gone, &mut AtOnce)?;
        mark_left(&mut plan.crowded, &plan.index, self.size, row.key);
        leave(&mut plan.left, id, None)?;
        plan.len -= 1;
        Ok(Answer::Gone(old))
    }
}

// Nothing of a plan waits for a step, so only memory can be missing.
fn or_memory<T>(made: Result<T, Undone>) -> Result<T, Memory>
    ensures { IfOk result (λ x. made ≡ Ok x) }
{
    made.map_err(|_| Memory)
}

// Notes where an operation leaves an object.
fn leave(
    left: &mut BTreeMap<u64, Option<Stamped>>,
    id: u64,
    now: Option<Stamped>,
) -> Result<(), AllocError>
    ensures { OnOk result (LeavesAt id now left.old.entries left.new.entries) }
{
    left.insert(id, now)?;
    Ok(())
}
