//! A batch of operations: worked out beside the table, and then published by one step.
ghost use Rattle.std.specs.Prelude.{◌≡◌, true, IfOk, OnErr};
ghost use Rattle.std.specs.List.{AllByRecursion, list_any};
ghost use Rattle.plain_list.specs.Answer.{is_change};
ghost use Rattle.point_table.specs.Drafts.{Drafts, IsDraftOf, drafted};
ghost use Rattle.point_table.specs.Splits.{splits_of};
ghost use Rattle.point_table.specs.Updates.{IsUpdate, TellsIf};

use crate::crowded::{Begun, Crowded};
use crate::table::PointTable;
use crate::table::net::make;
use crate::table::plans::Plan;
use bucket_versions::{Commit, Undone};
use index_layer::Index;
use plain_list::{Answer, Op, Stamped};
use std::collections::BTreeMap;
use std::marker::Model;
use zorder::Memory;

/// The answers to a batch of operations and the table after it. A draft shares memory with its table and changes
/// nothing there.
#[derive(Drop)]
pub struct Draft<I: Index> {
    /// The position of each id that the batch changed, or `None` if the object is gone.
    left: BTreeMap<u64, Option<Stamped>>,
    index: I,
    crowded: Crowded,
    /// The table's bucket size, in rows.
    size: u32,
    answers: Vec<Answer>,
}

impl<I: Index> Model for Draft<I> {
    ghost use Rattle.std.specs.Prelude.{◌≡◌};
    ghost use Rattle.point_table.specs.Drafts.{DraftView};

    ghost Value = { DraftView };

    ghost use Rattle.point_table.specs.Crowds.{crowded_of};

    ghost view = { λ d. record { left = d.left.entries; leaves = I.leaves d.index; size = d.size; answers = d.answers.items } };

    ghost invariant = { λ d. d.crowded.names ≡ crowded_of I.WIDTH d.size (I.leaves d.index) };
}

impl<I: Index> Draft<I> {
    /// The answer to each operation, in the order of the batch.
    pub fn answers(&self) -> &[Answer]
        ensures { result.now ≡ self.now.answers }
    {
        &self.answers
    }
}

impl<I: Index> PointTable<I> {
    /// Answers the operations of a batch one after the other, while the splits in `begun` are open, and returns the
    /// table after them as a draft. The table itself is unchanged.
    pub fn draft(&self, ops: &[Op], begun: &[Begun]) -> Result<Draft<I>, Memory>
        requires updates { AllByRecursion IsUpdate ops.now }
        ensures { IfOk result (λ d. Drafts (splits_of begun.now) self.now ops.now d) }
    {
        let mut plan = self.plan()?;
        let answers = self.answers(&mut plan, ops, begun)?;
        let Plan {
            left,
            len: _,
            index,
            crowded,
        } = plan;
        Ok(Draft {
            left,
            index,
            crowded,
            size: self.size,
            answers,
        })
    }

    /// Makes the changes of a draft after `commit` succeeded, and returns the answers. A draft without a change calls no
    /// `commit`. On an error the table is unchanged.
    ///
    /// The new objects are inserted before the step, and the others are removed after it. If the table has no room for
    /// the new objects beside those that the draft removes, all objects are copied first.
    pub fn publish<C: Commit>(
        &mut self,
        draft: Draft<I>,
        commit: &mut C,
    ) -> Result<Vec<Answer>, Undone>
        requires draft { IsDraftOf self.old draft }
        requires can { list_any is_change draft.answers ≡ true → C.can commit.old }
        ensures ok { IfOk result (λ answers. (self.new ≡ drafted self.old draft) × (answers.items ≡ draft.answers)) }
        ensures err { OnErr result (self.new ≡ self.old) }
        ensures told { TellsIf C.done C.lost (list_any is_change draft.answers) commit.old commit.new result }
    {
        let Draft {
            left,
            index,
            crowded,
            size: _,
            answers,
        } = draft;
        if !has_change(&answers) {
            return Ok(answers);
        }
        make(self.alloc, &mut self.members, &left, commit)?;
        self.index = index;
        self.crowded = crowded;
        Ok(answers)
    }
}

fn has_change(answers: &[Answer]) -> bool
    ensures { result ≡ list_any is_change answers.now }
{
    answers.iter().any(|answer| is_change(answer))
}

fn is_change(answer: &Answer) -> bool
    ensures { result ≡ is_change answer.now }
{
    matches!(answer, Answer::Done | Answer::Moved(_) | Answer::Gone(_))
}
