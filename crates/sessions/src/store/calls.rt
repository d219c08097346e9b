//! Calls: changes and finds under the lock, queries from a snapshot outside it.
ghost use Rattle.std.specs.Prelude.{◌≡◌, false, IfErr};
ghost use Rattle.plain_list.specs.Answer.{IsValid};
ghost use Rattle.commit_book.specs.Answers.{IsUpdate, IsQuery};
ghost use Rattle.sessions.specs.Calls.{CallEnds, Called, Looks, OpensFor, Updates};
ghost use Rattle.sessions.specs.Opens.{OpensRefused};
ghost use Rattle.sessions.specs.Splits.{SamePass};
ghost use Rattle.sessions.specs.Syncs.{Stood};

use super::Store;
use crate::faults::{CallFault, call_fault};
use crate::points::Points;
use crate::queries::ask;
use crate::shared::SharedBook;
use crate::start::Start;
use book_lock::Pass;
use commit_book::{BookFault, Done, Snapshot};
use disk_trait::LogDisk;
use index_layer::Index;
use io_edge::{Gate, GatePoint};
use plain_list::Op;
use std::alloc::Global;
use std::sync::Wait;
use std::sync::ledger::Ledger;
use step_count::Steps;

/// From this k on a near takes some ten microseconds.
const LONG_NEAR: u32 = 64;

// Whose call it is: the session, the number of its row, and what the row asks.
#[derive(Drop)]
struct Request {
    session: u8,
    row: u32,
    op: Op,
}

impl<I: Index, D: LogDisk, O: Start> Store<I, D, O> {
    // Answers a change or a find under the lock.
    fn update<R: Wait>(
        &self,
        rt: &R,
        pass: &mut Pass<SharedBook<I, D, O>>,
        request: &Request,
    ) -> Result<Done, BookFault>
        requires lock { pass.old.lock ≡ self.now }
        requires off { pass.old.holds ≡ false }
        requires update { IsUpdate request.now.op }
        ensures updates { Updates I.WIDTH request.now.session request.now.row request.now.op pass.old pass.new result }
        ensures stood { Stood D.drive I.WIDTH pass.new }
    {
        let mut book = self.take(rt, pass);
        let answer = book.update(request.session, request.row, &request.op);
        self.give(pass, book, &answer);
        answer
    }

    // Notes a query under the lock, and returns the index as it is there.
    fn look<R: Wait>(
        &self,
        rt: &R,
        pass: &mut Pass<SharedBook<I, D, O>>,
        request: &Request,
    ) -> Result<Snapshot<I>, BookFault>
        requires lock { pass.old.lock ≡ self.now }
        requires off { pass.old.holds ≡ false }
        requires query { IsQuery request.now.op }
        ensures looks { Looks I.leaves I.WIDTH request.now.session request.now.row request.now.op pass.old pass.new result }
        ensures free { pass.new.holds ≡ false }
        ensures stood { Stood D.drive I.WIDTH pass.new }
    {
        let mut book = self.take(rt, pass);
        let answer = book.snapshot(request.session, request.row, &request.op);
        self.give(pass, book, &answer);
        answer
    }

    // Answers a query outside the lock, from the index as it was at its place.
    fn query<R: Wait, G: Gate, L: Ledger>(
        &self,
        rt: &R,
        alloc: Global,
        pass: &mut Pass<SharedBook<I, D, O>>,
        request: &Request,
        points: &Points<'_, G>,
        steps: &mut Steps<L>,
    ) -> Result<Done, CallFault>
        requires lock { pass.old.lock ≡ self.now }
        requires off { pass.old.holds ≡ false }
        requires query { IsQuery request.now.op }
        requires valid { IsValid request.now.op }
        ensures called { Called I.WIDTH request.now.session request.now.row request.now.op pass.old pass.new result }
        ensures opened { OpensFor I.WIDTH request.now.op pass.new result steps.old steps.new }
        ensures refused { IfErr result (λ fault. OpensRefused fault steps.old steps.new) }
        ensures stood { Stood D.drive I.WIDTH pass.new }
    {
        let shown = match self.look(rt, pass, request) {
            Ok(shown) => shown,
            Err(fault) => return Err(call_fault(fault)),
        };
        if is_long(&request.op) {
            // So that another lane may have the store meanwhile.
            self.lock.rouse();
        }
        points.reach(GatePoint::Taken, request.session, pass);
        let place = shown.place;
        match ask(alloc, &shown.index, &request.op, steps, pass) {
            Ok(answer) => Ok(Done {
                place,
                answer,
                full: None,
            }),
            Err(_) => Err(CallFault::Memory { place: Some(place) }),
        }
    }

    // Answers a call by its kind.
    fn answer<R: Wait, G: Gate, L: Ledger>(
        &self,
        rt: &R,
        alloc: Global,
        pass: &mut Pass<SharedBook<I, D, O>>,
        request: &Request,
        points: &Points<'_, G>,
        steps: &mut Steps<L>,
    ) -> Result<Done, CallFault>
        requires lock { pass.old.lock ≡ self.now }
        requires off { pass.old.holds ≡ false }
        requires valid { IsValid request.now.op }
        ensures called { Called I.WIDTH request.now.session request.now.row request.now.op pass.old pass.new result }
        ensures opened { OpensFor I.WIDTH request.now.op pass.new result steps.old steps.new }
        ensures refused { IfErr result (λ fault. OpensRefused fault steps.old steps.new) }
        ensures stood { Stood D.drive I.WIDTH pass.new }
    {
        match request.op {
            Op::Within { .. } => self.query(rt, alloc, pass, request, points, steps),
            Op::Near { .. } => self.query(rt, alloc, pass, request, points, steps),
            _ => self.update(rt, pass, request).map_err(call_fault),
        }
    }

    // Answers a call, and notes it.
    pub(super) fn call_at<R: Wait, G: Gate, L: Ledger>(
        &self,
        rt: &R,
        alloc: Global,
        pass: &mut Pass<SharedBook<I, D, O>>,
        session: u8,
        row: u32,
        op: &Op,
        points: &Points<'_, G>,
        steps: &mut Steps<L>,
    ) -> Result<Done, CallFault>
        requires lock { pass.old.lock ≡ self.now }
        requires off { pass.old.holds ≡ false }
        requires valid { IsValid op.now }
        ensures { CallEnds D.drive I.WIDTH session row op.now pass.old pass.new steps.old steps.new result }
    {
        pass.will_read(is_read(op));
        let request = Request {
            session,
            row,
            op: *op,
        };
        let answer = self.answer(rt, alloc, pass, &request, points, steps);
        points.reach(GatePoint::Answered, session, pass);
        answer
    }

    /// Answers a call, and notes it in the one history. A query is answered outside the lock, from a snapshot of the
    /// index. The gate's points are reached outside the lock too.
    pub fn call<R: Wait, G: Gate, L: Ledger>(
        &self,
        rt: &R,
        alloc: Global,
        pass: &mut Pass<SharedBook<I, D, O>>,
        session: u8,
        row: u32,
        op: &Op,
        gate: &G,
        steps: &mut Steps<L>,
    ) -> Result<Done, CallFault>
        requires lock { pass.old.lock ≡ self.now }
        requires off { pass.old.holds ≡ false }
        requires valid { IsValid op.now }
        ensures called { Called I.WIDTH session row op.now pass.old pass.new result }
        ensures opened { OpensFor I.WIDTH op.now pass.new result steps.old steps.new }
        ensures refused { IfErr result (λ fault. OpensRefused fault steps.old steps.new) }
        ensures pass { SamePass pass.old pass.new }
        ensures stood { Stood D.drive I.WIDTH pass.new }
    {
        let points = Points::at(gate);
        self.call_at(rt, alloc, pass, session, row, op, &points, steps)
    }
}

// Whether its answer takes longer than it takes to wake somebody.
fn is_long(op: &Op) -> bool {
    match *op {
        Op::Near { at: _, k } => k >= LONG_NEAR,
        _ => false,
    }
}

// Whether an operation changes nothing in any world.
fn is_read(op: &Op) -> bool {
    matches!(op, Op::Find { .. } | Op::Within { .. } | Op::Near { .. })
}
