//! Splits of leaves, while other threads call.
ghost use Rattle.std.specs.Prelude.{◌≡◌, Bool, List, false, IfOk};
ghost use Rattle.std.specs.Arc.{arc_value};
ghost use Rattle.bucket_versions.specs.declared.row.Row.{Row};
ghost use Rattle.commit_book.specs.SplitSteps.{CanPrepare};
ghost use Rattle.sessions.specs.Splits.{number_of, HasBegun, BeginsSplit, InstallsSplit, AbandonsSplit, GivesUp, BegunEnds, IsNotSplit, SplitEnds, SamePass};

use super::Store;
use crate::faults::{Split, lasting};
use crate::points::{Points, prepare_free};
use crate::shared::SharedBook;
use crate::start::Start;
use book_lock::Pass;
use commit_book::BookFault;
use disk_trait::LogDisk;
use index_layer::Index;
use io_edge::{Gate, GatePoint};
use split_prepare::{Prepared, SplitTicket};
use std::alloc::Global;
use std::sync::Wait;
use zorder::Name;

impl<I: Index, D: LogDisk, O: Start> Store<I, D, O> {
    // Begins a split under the lock.
    fn begin<R: Wait>(
        &self,
        rt: &R,
        pass: &mut Pass<SharedBook<I, D, O>>,
        name: &Name,
    ) -> Result<SplitTicket, BookFault>
        requires lock { pass.old.lock ≡ self.now }
        requires off { pass.old.holds ≡ false }
        ensures step { BeginsSplit I.WIDTH name.now pass.old pass.new (number_of result) }
        ensures begun { IfOk result (λ t. HasBegun pass.new t.number name.now (arc_value t.bucket).base) }
        ensures name { IfOk result (λ t. t.name ≡ name.now) }
        ensures ticket { IfOk result (λ t. CanPrepare I.WIDTH t) }
        ensures free { pass.new.holds ≡ false }
    {
        let mut book = self.take(rt, pass);
        let answer = book.begin(name);
        self.give(pass, book, &answer);
        answer
    }

    // Installs a split that the pass has begun.
    fn install<R: Wait>(
        &self,
        rt: &R,
        pass: &mut Pass<SharedBook<I, D, O>>,
        prepared: &Prepared,
    ) -> Result<(), BookFault>
        requires lock { pass.old.lock ≡ self.now }
        requires off { pass.old.holds ≡ false }
        requires width { prepared.now.width ≡ I.WIDTH }
        requires begun { HasBegun pass.old prepared.now.number prepared.now.name prepared.now.base }
        ensures { InstallsSplit I.WIDTH prepared.now.number pass.old pass.new result }
    {
        let mut book = self.take(rt, pass);
        let answer = book.install(prepared);
        self.give(pass, book, &answer);
        answer
    }

    // Abandons a split that the pass has begun.
    fn abandon<R: Wait>(
        &self,
        rt: &R,
        pass: &mut Pass<SharedBook<I, D, O>>,
        number: u64,
    ) -> Result<(), BookFault>
        requires lock { pass.old.lock ≡ self.now }
        requires off { pass.old.holds ≡ false }
        requires begun { (name : List Bool) × (base : List Row) × HasBegun pass.old number name base }
        ensures { AbandonsSplit I.WIDTH number pass.old pass.new result }
    {
        let mut book = self.take(rt, pass);
        let answer = book.abandon(number);
        self.give(pass, book, &answer);
        answer
    }

    // Abandons a split because memory ran out.
    fn give_up<R: Wait>(&self, rt: &R, pass: &mut Pass<SharedBook<I, D, O>>, number: u64) -> Split
        requires lock { pass.old.lock ≡ self.now }
        requires off { pass.old.holds ≡ false }
        requires begun { (name : List Bool) × (base : List Row) × HasBegun pass.old number name base }
        ensures { IsNotSplit (GivesUp I.WIDTH number pass.old pass.new) result }
    {
        match self.abandon(rt, pass, number) {
            Ok(()) => Split::NotSplit(BookFault::Memory),
            Err(fault) => Split::NotSplit(fault),
        }
    }

    // Installs a split that the pass has begun. If memory runs out, the split is abandoned.
    fn finish<R: Wait>(
        &self,
        rt: &R,
        pass: &mut Pass<SharedBook<I, D, O>>,
        prepared: &Prepared,
    ) -> Split
        requires lock { pass.old.lock ≡ self.now }
        requires off { pass.old.holds ≡ false }
        requires width { prepared.now.width ≡ I.WIDTH }
        requires begun { HasBegun pass.old prepared.now.number prepared.now.name prepared.now.base }
        ensures { BegunEnds I.WIDTH prepared.now.number pass.old pass.new result }
    {
        let number = prepared.number();
        match self.install(rt, pass, prepared) {
            Ok(()) => Split::Installed { number },
            Err(BookFault::Memory) => self.give_up(rt, pass, number),
            Err(fault) => Split::NotSplit(lasting(fault)),
        }
    }

    // Prepares a split that the pass has begun, and installs it. If memory runs out, the split is abandoned.
    fn carry_out<R: Wait, G: Gate>(
        &self,
        rt: &R,
        alloc: Global,
        pass: &mut Pass<SharedBook<I, D, O>>,
        session: u8,
        ticket: &SplitTicket,
        points: &Points<'_, G>,
    ) -> Split
        requires lock { pass.old.lock ≡ self.now }
        requires off { pass.old.holds ≡ false }
        requires ticket { CanPrepare I.WIDTH ticket.now }
        requires begun { HasBegun pass.old ticket.now.number ticket.now.name (arc_value ticket.now.bucket).base }
        ensures { BegunEnds I.WIDTH ticket.now.number pass.old pass.new result }
    {
        let Ok(prepared) = prepare_free::<I, _>(alloc, ticket, pass) else {
            return self.give_up(rt, pass, ticket.number);
        };
        points.reach(GatePoint::Ready, session, pass);
        self.finish(rt, pass, &prepared)
    }

    // Begins a split, prepares and installs it.
    pub(super) fn split_at<R: Wait, G: Gate>(
        &self,
        rt: &R,
        alloc: Global,
        pass: &mut Pass<SharedBook<I, D, O>>,
        session: u8,
        name: &Name,
        points: &Points<'_, G>,
    ) -> Split
        requires lock { pass.old.lock ≡ self.now }
        requires off { pass.old.holds ≡ false }
        ensures ends { SplitEnds I.WIDTH name.now pass.old pass.new result }
        ensures pass { SamePass pass.old pass.new }
    {
        pass.will_read(false);
        let ticket = match self.begin(rt, pass, name) {
            Ok(ticket) => ticket,
            Err(fault) => return Split::NotSplit(fault),
        };
        points.reach(GatePoint::Begun, session, pass);
        self.carry_out(rt, alloc, pass, session, &ticket, points)
    }

    /// Splits a leaf. It begins the split under the lock, prepares the children outside it, and installs them under it. If
    /// memory runs out after the begin, the split is abandoned.
    pub fn split_once<R: Wait, G: Gate>(
        &self,
        rt: &R,
        alloc: Global,
        pass: &mut Pass<SharedBook<I, D, O>>,
        session: u8,
        name: &Name,
        gate: &G,
    ) -> Split
        requires lock { pass.old.lock ≡ self.now }
        requires off { pass.old.holds ≡ false }
        ensures ends { SplitEnds I.WIDTH name.now pass.old pass.new result }
        ensures pass { SamePass pass.old pass.new }
    {
        self.split_at(rt, alloc, pass, session, name, &Points::at(gate))
    }
}
