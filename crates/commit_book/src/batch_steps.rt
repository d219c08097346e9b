//! The step of a batch: its records go to the log together.
ghost use Rattle.std.specs.Prelude.{◌≡◌, true, length, map, IfOk, OnOk, OnErr, ◌++◌, [], if◌then◌else◌};
ghost use Rattle.std.specs.List.{AllByRecursion, list_any};
ghost use Rattle.plain_list.specs.Answer.{is_change};
ghost use Rattle.log_state.specs.Changes.{change_cells};
ghost use Rattle.point_table.specs.Drafts.{IsDraftOf, drafted};
ghost use Rattle.point_table.specs.Splits.{splits_of};
ghost use Rattle.commit_book.specs.Answers.{IsUpdate};
ghost use Rattle.commit_book.specs.BatchSteps.{CanStepAll, TakesAll, LosesAll, Adds, Plans, flagged_cells};

use crate::book::is_change;
use crate::steps::change_cell;
use bucket_versions::{Commit, Undone};
use cell_format::Cell;
use disk_trait::LogDisk;
use index_layer::Index;
use kept_log::{AppendAllLost, Journal};
use plain_list::{Answer, Op};
use point_table::{Begun, Draft, PointTable};
use std::alloc::{AllocError, Global};
use zorder::Memory;

/// A batch worked out beside the table.
#[derive(Drop)]
pub(crate) struct BatchPlan<I: Index> {
    pub(crate) draft: Draft<I>,
    /// Whether each operation changes the world.
    pub(crate) changes: Vec<bool>,
    /// The records of the operations that do.
    pub(crate) cells: Vec<Cell>,
}

/// The step for which the changes of a batch wait. Its records go to the log together, if there is a log.
#[derive(Drop)]
pub(crate) struct BatchStep<'a, D: LogDisk> {
    pub(crate) alloc: Global,
    pub(crate) journal: &'a mut Journal<D>,
    pub(crate) cells: &'a [Cell],
    /// Why a step failed.
    pub(crate) lost: Option<AppendAllLost>,
}

impl<'a, D: LogDisk> Commit for BatchStep<'a, D> {
    ghost can = { λ s. CanStepAll s.cells.now s.journal.now };

    ghost done = { TakesAll D.drive };

    ghost lost = { LosesAll D.drive };

    fn commit(&mut self) -> bool {
        match self.journal.append_all(self.alloc, self.cells) {
            Ok(()) => true,
            Err(lost) => {
                self.lost = Some(lost);
                false
            }
        }
    }
}

/// Works out a batch while the splits in `begun` are open. The table is unchanged.
pub(crate) fn plan<I: Index>(
    alloc: Global,
    table: &PointTable<I>,
    begun: &[Begun],
    ops: &[Op],
) -> Result<BatchPlan<I>, Memory>
    requires { AllByRecursion IsUpdate ops.now }
    ensures { IfOk result (λ p. Plans (splits_of begun.now) table.now ops.now p.draft p.changes.items p.cells.items) }
{
    let draft = table.draft(ops, begun)?;
    let changes = changes_of(alloc, draft.answers())?;
    let cells = cells_of(alloc, ops, &changes)?;
    Ok(BatchPlan {
        draft,
        changes,
        cells,
    })
}

/// Adds the records of a batch to the log, and then makes its changes. If the records are not added, the table is
/// unchanged.
pub(crate) fn publish<I: Index, D: LogDisk>(
    alloc: Global,
    table: &mut PointTable<I>,
    journal: &mut Journal<D>,
    draft: Draft<I>,
    cells: &[Cell],
) -> Result<Vec<Answer>, AppendAllLost>
    requires draft { IsDraftOf table.old draft }
    requires can { list_any is_change draft.answers ≡ true → CanStepAll cells.now journal.old }
    ensures ok { IfOk result (λ answers. (table.new ≡ drafted table.old draft) × (answers.items ≡ draft.answers)) }
    ensures err { OnErr result (table.new ≡ table.old) }
    ensures adds { Adds D.drive cells.now (list_any is_change draft.answers) journal.old journal.new result }
{
    let mut step = BatchStep {
        alloc,
        journal,
        cells,
        lost: None,
    };
    match table.publish(draft, &mut step) {
        Ok(answers) => Ok(answers),
        Err(Undone::Memory) => Err(AppendAllLost::Memory),
        Err(Undone::Lost) => match step.lost {
            Some(lost) => Err(lost),
            None => unreachable!(),
        },
    }
}

// Which operations change the world, by their answers.
fn changes_of(alloc: Global, answers: &[Answer]) -> Result<Vec<bool>, AllocError>
    ensures { IfOk result (λ v. v.items ≡ map is_change answers.now) }
{
    answers
        .iter()
        .map(|answer| is_change(answer))
        .collect(alloc)
}

// The records of the operations that change the world.
fn cells_of(alloc: Global, ops: &[Op], changes: &[bool]) -> Result<Vec<Cell>, AllocError>
    requires { length changes.now ≡ length ops.now }
    ensures { IfOk result (λ v. v.items ≡ flagged_cells changes.now ops.now) }
{
    let mut cells = Vec::new(alloc);
    for (i, op) in ops.iter().enumerate() {
        push_cell(&mut cells, op, changes[i])?;
    }
    Ok(cells)
}

// Adds the record of an operation, if the operation changes the world.
fn push_cell(cells: &mut Vec<Cell>, op: &Op, change: bool) -> Result<(), AllocError>
    ensures { OnOk result (cells.new.items ≡ cells.old.items ++ (if change then change_cells op.now else [])) }
{
    if change && let Some(cell) = change_cell(op) {
        cells.push(cell)?;
    }
    Ok(())
}
