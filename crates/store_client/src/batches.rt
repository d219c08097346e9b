//! Batches of a client: many operations in one step.
ghost use Rattle.std.specs.Prelude.{◌≡◌, ◌+◌, ◌≤◌, ◌^◌};
ghost use Rattle.sessions.specs.Splits.{SamePass};
ghost use Rattle.store_client.specs.Batches.{Applies, TriesSome, first_row, more_splits, most_batch, row_after};
ghost use Rattle.store_client.specs.Caller.{IsFree, Keeps};

use crate::batch::Batch;
use crate::client::{Client, try_split};
use crate::tending::tend_and_apply;
use book_lock::Pass;
use disk_trait::LogDisk;
use index_layer::Index;
use io_edge::OpenGate;
use plain_list::Answer;
use sessions::{CallFault, SharedBook, Split, Start, Store};
use std::alloc::Global;
use std::sync::Wait;

/// The answers to a batch, and how the split ended that was tried after it.
#[derive(Drop)]
pub struct Replies {
    /// The number of the batch's last call among the calls of the history, from 1. The numbers of its calls follow one
    /// another, so the first one has `place + 1 - answers.len()`. `changes` returns what each call has changed.
    pub place: u64,
    /// The answer to each operation, in the batch's order.
    pub answers: Vec<Answer>,
    /// `Some` if a leaf was full after the batch.
    pub split: Option<Split>,
}

/// The number of the first row of a batch with so many operations, and that of its caller's next row after it.
pub fn rows_of(row: u32, count: usize) -> (u32, u32)
    requires { count ≤ most_batch }
    ensures first { result.0 ≡ first_row row count }
    ensures next { result.1 ≡ row_after row count }
    ensures fits { result.0 + count ≤ 2 ^ 32 }
{
    let most = u32::MAX as u64 + 1 - count as u64;
    let first = (row as u64).min(most) as u32;
    (first, row.saturating_add(count as u32))
}

// For so many operations of a batch one more split is tried after it.
const OPERATIONS_A_SPLIT: usize = 64;

/// How many more splits are tried after a batch of so many operations, whose first split ended so: one for each 64
/// operations, and none if the first leaf was not split.
pub fn more_splits(first: &Option<Split>, operations: usize) -> usize
    ensures { result ≤ more_splits operations }
{
    match first {
        Some(Split::Installed { number: _ }) => operations / OPERATIONS_A_SPLIT,
        _ => 0,
    }
}

/// Splits the leaves that are due after all that the pass has seen, at most so many. It stops at the first leaf that
/// isn't split. It is what a `Client` does after a batch, for callers of another kind.
pub fn split_some<I: Index, D: LogDisk, O: Start, R: Wait>(
    rt: &R,
    alloc: Global,
    store: &Store<I, D, O>,
    pass: &mut Pass<SharedBook<I, D, O>>,
    session: u8,
    most: usize,
)
    requires { IsFree store.now pass.old }
    ensures tries { TriesSome I.WIDTH most pass.old pass.new }
    ensures pass { SamePass pass.old pass.new }
{
    for _ in 0..most {
        let Some(name) = store.full(rt, pass) else {
            return;
        };
        let split = store.split_once(rt, alloc, pass, session, &name, &OpenGate);
        if let Split::NotSplit(_) = split {
            return;
        }
    }
}

impl<'s, I: Index, D: LogDisk, O: Start> Client<'s, I, D, O> {
    /// Executes a batch as one step. Its calls follow one another in the history, so no other caller sees or changes
    /// anything between them. With a log, all its changes are one append of four device calls, and a crash leaves all
    /// of them or none. A batch that changes nothing makes no device call, and an empty one adds no entry.
    ///
    /// `Err` says that no operation was executed. After a batch the client splits full leaves, one and another one for
    /// each 64 operations. The next calls split the others.
    pub fn apply<R: Wait>(&mut self, rt: &R, batch: &Batch) -> Result<Replies, CallFault>
        ensures applies { Applies I.WIDTH batch.now self.old self.new result }
        ensures client { Keeps self.old self.new }
    {
        let (store, alloc, session) = (self.store, self.alloc, self.session);
        let ops = batch.ops();
        let (row, next) = rows_of(self.row, ops.len());
        self.row = next;
        let pass = &mut self.pass;
        let done = match tend_and_apply(rt, alloc, store, pass, session, row, ops) {
            Ok(done) => done,
            Err(fault) => return Err(fault),
        };
        let split = try_split(rt, alloc, store, pass, session, done.full);
        let more = more_splits(&split, ops.len());
        split_some(rt, alloc, store, pass, session, more);
        self.place = done.place;
        self.change = None;
        Ok(Replies {
            place: done.place,
            answers: done.answers,
            split,
        })
    }
}
