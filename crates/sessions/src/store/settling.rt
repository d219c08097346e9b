//! The splits that are due at the end, when there is no other caller.
ghost use Rattle.std.specs.Prelude.{◌≡◌, false, None, Some};
ghost use Rattle.commit_book.specs.Refusals.{closed_refusal};
ghost use Rattle.sessions.specs.Calls.{next_full};
ghost use Rattle.sessions.specs.Settles.{TellsNext, IsNextFault, SplitFault, Settles};
ghost use Rattle.sessions.specs.Shared.{moves_of};
ghost use Rattle.sessions.specs.Splits.{SplitEnds, SamePass};
ghost use Rattle.sessions.specs.Steps.{all_parts};

use super::Store;
use crate::faults::{Settled, Split, settle_fault};
use crate::points::Points;
use crate::shared::SharedBook;
use crate::start::Start;
use book_lock::Pass;
use commit_book::BookFault;
use disk_trait::LogDisk;
use index_layer::Index;
use io_edge::Gate;
use std::alloc::Global;
use std::sync::Wait;
use zorder::Name;

impl<I: Index, D: LogDisk, O: Start> Store<I, D, O> {
    // The leaf to split next, or the fault of a closed book.
    fn next<R: Wait>(
        &self,
        rt: &R,
        pass: &mut Pass<SharedBook<I, D, O>>,
    ) -> Result<Option<Name>, BookFault>
        requires lock { pass.old.lock ≡ self.now }
        requires off { pass.old.holds ≡ false }
        requires all { pass.old.parts ≡ all_parts }
        ensures next { TellsNext I.WIDTH pass.old result }
        ensures pass { pass.new ≡ pass.old }
    {
        let book = self.lock.take(rt, pass);
        let answer = book.next_full();
        self.lock.put_back(pass, book);
        answer
    }

    // Splits the leaf that is next.
    fn split_next<R: Wait, G: Gate>(
        &self,
        rt: &R,
        alloc: Global,
        pass: &mut Pass<SharedBook<I, D, O>>,
        name: &Name,
        points: &Points<'_, G>,
    ) -> Split
        requires lock { pass.old.lock ≡ self.now }
        requires off { pass.old.holds ≡ false }
        requires all { pass.old.parts ≡ all_parts }
        requires unclosed { closed_refusal pass.old.seen ≡ None }
        requires full { next_full I.WIDTH pass.old ≡ Some name.now }
        ensures ends { SplitEnds I.WIDTH name.now pass.old pass.new result }
        ensures fault { SplitFault (IsNextFault (moves_of pass.old.origin)) result }
        ensures pass { SamePass pass.old pass.new }
    {
        self.split_at(rt, alloc, pass, 0, name, points)
    }

    /// Splits the leaves that are due, one after another, until none is due or there is no room for a split. It reaches
    /// the gate's points as lane 0.
    pub fn settle<R: Wait, G: Gate>(
        &self,
        rt: &R,
        alloc: Global,
        pass: &mut Pass<SharedBook<I, D, O>>,
        gate: &G,
    ) -> Result<Settled, BookFault>
        requires lock { pass.old.lock ≡ self.now }
        requires off { pass.old.holds ≡ false }
        requires all { pass.old.parts ≡ all_parts }
        ensures settles { Settles I.WIDTH pass.old pass.new result }
        ensures pass { SamePass pass.old pass.new }
    {
        let points = Points::at(gate);
        for _ in rt.forever() {
            let name = match self.next(rt, pass) {
                Ok(Some(name)) => name,
                Ok(None) => return Ok(Settled::Small),
                Err(fault) => return Err(fault),
            };
            match self.split_next(rt, alloc, pass, &name, &points) {
                Split::Installed { number: _ } => {}
                Split::NotSplit(BookFault::Room { .. }) => return Ok(Settled::Room),
                Split::NotSplit(fault) => return Err(settle_fault(fault)),
            }
        }
        unreachable!()
    }
}
