//! A batch: operations that are one step.
ghost use Rattle.std.specs.Prelude.{◌≡◌, ◌+◌, ◌^◌, ◌≤◌, length, IfOk, IfErr};
ghost use Rattle.std.specs.List.{AllByRecursion};
ghost use Rattle.plain_list.specs.Batch.{batch_calls};
ghost use Rattle.commit_book.specs.Answers.{IsUpdate};
ghost use Rattle.commit_book.specs.Batches.{RepliesAll, LeavesRefusedAll, LeavesAllCells, batch_refusal, most_changes};
ghost use Rattle.commit_book.specs.IsBook.{AreBooks};
ghost use Rattle.commit_book.specs.Refusals.{IsRefusedBy, IsMemoryOrDisk, IsNoFault};

use crate::batch_steps::{BatchPlan, plan, publish};
use crate::book::Book;
use crate::faults::BookFault;
use crate::history::is_ask;
use disk_trait::LogDisk;
use index_layer::Index;
use kept_log::AppendAllLost;
use plain_list::{Answer, Op};
use split_log::MOST_CELLS;
use std::alloc::Global;
use zorder::Name;

/// What a book returns for a batch.
#[derive(Drop)]
pub struct BatchDone {
    /// The number of the batch's last call among the calls of this run. The numbers of its calls follow one another.
    pub place: u64,
    /// The answer of the plain list to each operation, in their order.
    pub answers: Vec<Answer>,
    /// The leaf to split next, or `None` if no leaf needs a split.
    pub full: Option<Name>,
}

impl<I: Index, D: LogDisk> Book<I, D> {
    /// Executes changes and finds, one after the other, as one step, and appends their entries. The first has this row,
    /// and each of the others the next one. All memory is taken before the log is written. A log is written once for
    /// all changes, and a crash leaves all of them or none.
    pub fn update_all(
        &mut self,
        alloc: Global,
        session: u8,
        row: u32,
        ops: &[Op],
    ) -> Result<BatchDone, BookFault>
        requires updates { AllByRecursion IsUpdate ops.now }
        requires rows { row + length ops.now ≤ 2 ^ 32 }
        ensures ok { IfOk result (λ d. RepliesAll I.WIDTH self.old self.new session row ops.now d.place d.answers.items d.full) }
        ensures refused { IsRefusedBy IsMemoryOrDisk (batch_refusal self.old ops.now) result }
        ensures err { IfErr result (LeavesRefusedAll D.drive session row ops.now self.old self.new) }
        ensures any_moment { LeavesAllCells D.drive I.WIDTH (batch_calls session row ops.now) self.old self.new }
        ensures book { AreBooks D.drive I.WIDTH self.old self.new }
    {
        self.keep();
        self.check_batch(ops)?;
        let BatchPlan {
            draft,
            changes,
            cells,
        } = plan(alloc, &self.table, self.splits.as_slice(), ops)?;
        self.history.reserve(self.splits.len() + ops.len())?;
        match publish(alloc, &mut self.table, &mut self.journal, draft, &cells) {
            Ok(answers) => {
                self.history.push_calls(session, row, ops);
                Ok(BatchDone {
                    place: self.history.calls(),
                    answers,
                    full: self.full(),
                })
            }
            Err(AppendAllLost::Disk { cell }) => {
                self.history.push_fails(cell, session, row, ops, &changes);
                self.keep();
                Err(BookFault::Disk { cell })
            }
            Err(AppendAllLost::Memory) => {
                self.keep();
                Err(BookFault::Memory)
            }
        }
    }

    fn check_batch(&self, ops: &[Op]) -> Result<(), BookFault>
        ensures { IsRefusedBy IsNoFault (batch_refusal self.now ops.now) result }
    {
        if let Some(cell) = self.closed() {
            return Err(BookFault::Closed { cell });
        }
        if ops.len() as u64 > self.history.most() - self.events() {
            return Err(BookFault::HistoryFull);
        }
        if most_changes(ops) as u64 > MOST_CELLS - self.cells() {
            return Err(BookFault::LogFull);
        }
        Ok(())
    }
}

// How many records these operations may need.
fn most_changes(ops: &[Op]) -> usize
    ensures { result ≡ most_changes ops.now }
{
    ops.iter().filter(|op| !is_ask(op)).count()
}
