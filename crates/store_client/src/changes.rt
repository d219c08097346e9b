//! What a call or a batch has changed.
ghost use Rattle.std.specs.Prelude.{◌≡◌, ◌-◌, ◌++◌, length, option_to_list, IfOk, OnOk};
ghost use Rattle.plain_list.specs.Changes.{change_of};
ghost use Rattle.store_client.specs.Changes.{changes_in, report_change};

use crate::answers::Report;
use crate::batch::Batch;
use crate::batches::Replies;
use crate::client::Reply;
use plain_list::{Answer, Change, Op};
use std::alloc::Global;
use zorder::{Memory, Point};

impl Reply {
    /// What the call has changed, if `op` is its operation. A query has changed nothing, nor has a call whose answer says
    /// so.
    pub fn change(&self, op: &Op) -> Option<Change>
        ensures { result ≡ change_of self.now.place op.now self.now.answer }
    {
        Change::of(self.place, op, &self.answer)
    }
}

impl Report {
    /// What the report with this answer has changed. The arguments are those of the report, and `place` is the place of its
    /// last call (`Client::place`).
    pub fn change(&self, place: u64, id: u64, at: Point) -> Option<Change>
        ensures { result ≡ report_change place id at self.now }
    {
        let before = match self {
            Report::New => None,
            Report::From(from) => Some(from.at),
            Report::Stale(_) | Report::Full => return None,
        };
        Some(Change {
            place,
            id,
            before,
            after: Some(at),
        })
    }
}

impl Replies {
    /// What this batch has changed, in its order: a change for each operation that changed something, with its place. A
    /// query has changed nothing, nor has an operation whose answer says so.
    pub fn changes(&self, alloc: Global, batch: &Batch) -> Result<Vec<Change>, Memory>
        ensures { IfOk result (λ changes. changes.items
            ≡ changes_in (self.now.place - length self.now.answers.items) batch.now self.now.answers.items) }
    {
        all_changes(alloc, self.place, batch.ops(), &self.answers)
    }
}

// What operations with these answers have changed. The last one has this place.
fn all_changes(
    alloc: Global,
    last: u64,
    ops: &[Op],
    answers: &[Answer],
) -> Result<Vec<Change>, Memory>
    ensures { IfOk result (λ changes. changes.items ≡ changes_in (last - length answers.now) ops.now answers.now) }
{
    let mut place = last.saturating_sub(answers.len() as u64);
    let mut changes = Vec::new(alloc);
    for (op, answer) in ops.iter().zip(answers) {
        place = place.saturating_add(1);
        push_some(&mut changes, Change::of(place, op, answer))?;
    }
    Ok(changes)
}

// Adds a change, if there is one.
fn push_some(changes: &mut Vec<Change>, change: Option<Change>) -> Result<(), Memory>
    ensures { OnOk result (changes.new.items ≡ changes.old.items ++ option_to_list change) }
{
    if let Some(change) = change {
        changes.push(change)?;
    }
    Ok(())
}
