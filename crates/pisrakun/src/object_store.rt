//! A store as one value, and its calls.
ghost use Rattle.std.specs.Prelude.{◌≡◌, None};
ghost use Rattle.plain_list.specs.Answer.{IsValid};
ghost use Rattle.store_client.specs.Asked.{Asked, AskedCounted};
ghost use Rattle.store_client.specs.Caller.{Keeps};
ghost use Rattle.store_file.specs.Opened.{IsFirst};
ghost use Rattle.pisrakun.specs.Now.{DoesNow, IsWhole};
ghost use Rattle.pisrakun.specs.Sessions.{labelled, label_of};

use crate::label::Label;
use book_lock::Pass;
use disk_trait::LogDisk;
use index_layer::Index;
use plain_list::{Change, Op};
use sessions::{CallFault, SharedBook, Start, Store};
use std::alloc::Global;
use std::marker::{Brand, Model};
use std::sync::Wait;
use std::sync::ledger::{Blank, Ledger};
use step_count::Steps;
use store_client::{Reply, tend_and_call, try_split};

/// A store of moving objects with the right to call it, to share it and to end it. It can't be dropped: end it with
/// `close`, so don't use `?` while you own one. You may lend it freely, since nobody can take a part of it away.
///
/// It calls as one session, 0 at first. The session and a row number, which counts its calls from 0, are next to each
/// call in the history. They tell calls apart for a reader, and mean nothing else.
pub struct ObjectStore<I: Index, D: LogDisk, O: Start> {
    pub(crate) store: Store<I, D, O>,
    pub(crate) pass: Pass<SharedBook<I, D, O>>,
    pub(crate) alloc: Global,
    pub(crate) session: u8,
    pub(crate) row: u32,
    pub(crate) place: u64,
    pub(crate) change: Option<Change>,
}

impl<I: Index, D: LogDisk, O: Start> Model for ObjectStore<I, D, O> {
    ghost use Rattle.store_client.specs.Caller.{Caller};
    ghost use Rattle.store_file.specs.Opened.{IsFirst};

    ghost Value = { Caller };

    ghost view = { λ s. record { pass = s.pass; session = s.session; row = s.row; place = s.place; change = s.change } };

    ghost invariant = { λ s. IsFirst s.store s.pass };
}

impl<I: Index, D: LogDisk, O: Start> ObjectStore<I, D, O> {
    /// Makes one value of a store and its whole pass, as `Store::new` and the lower openings return them.
    pub fn from_parts(
        alloc: Global,
        store: Store<I, D, O>,
        pass: Pass<SharedBook<I, D, O>>,
    ) -> ObjectStore<I, D, O>
        requires { IsFirst store pass }
        ensures { result ≡ record { pass = pass; session = 0; row = 0; place = 0; change = None } }
    {
        ObjectStore {
            store,
            pass,
            alloc,
            session: 0,
            row: 0,
            place: 0,
            change: None,
        }
    }

    /// Returns the store and its whole pass, for calls that this type doesn't have.
    pub fn into_parts(self) -> (Store<I, D, O>, Pass<SharedBook<I, D, O>>)
        ensures pass { result.1 ≡ self.pass }
        ensures first { IsFirst result.0 result.1 }
    {
        let ObjectStore {
            store,
            pass,
            alloc: _,
            session: _,
            row: _,
            place: _,
            change: _,
        } = self;
        (store, pass)
    }

    /// The place of the last call that was answered, and 0 if there is none. After a report it is the place of its
    /// move, or of the put after it.
    pub fn place(&self) -> u64
        ensures { result ≡ self.now.place }
    {
        self.place
    }

    /// What the last call that was answered has changed, with its place: `None` if it was a query, or if its answer says that
    /// nothing changed. After a batch it is `None` too: `Replies::changes` returns what the batch has changed.
    pub fn last_change(&self) -> Option<Change>
        ensures { result ≡ self.now.change }
    {
        self.change
    }

    /// Makes the next calls in this session.
    pub fn set_session(&mut self, session: u8)
        ensures { self.new ≡ record self.old { session = session } }
    {
        self.session = session;
    }

    // The label of the next call.
    pub(crate) fn label(&self) -> Label
        ensures { result ≡ label_of self.now }
    {
        Label {
            session: self.session,
            row: self.row,
            place: self.place,
            change: self.change,
        }
    }

    // Makes the next calls with this label, and returns the one before.
    pub(crate) fn relabel(&mut self, label: Label) -> Label
        ensures store { self.new ≡ labelled self.old label }
        ensures before { result ≡ label_of self.old }
    {
        let before = self.label();
        self.session = label.session;
        self.row = label.row;
        self.place = label.place;
        self.change = label.change;
        before
    }

    /// As `ask`, and counts how many buckets are opened for the answer.
    pub fn ask_counted<R: Wait, L: Ledger>(
        &mut self,
        rt: &R,
        op: &Op,
        steps: &mut Steps<L>,
    ) -> Result<Reply, CallFault>
        requires { IsValid op.now }
        ensures asked { AskedCounted I.WIDTH op.now self.old self.new steps.old steps.new result }
        ensures whole { IsWhole self.old }
        ensures store { Keeps self.old self.new }
    {
        let (alloc, session, row) = (self.alloc, self.session, self.row);
        self.row = row.saturating_add(1);
        let (store, pass) = (&self.store, &mut self.pass);
        let done = match tend_and_call(rt, alloc, store, pass, session, row, op, steps) {
            Ok(done) => done,
            Err(fault) => return Err(fault),
        };
        let split = try_split(rt, alloc, store, pass, session, done.full);
        self.place = done.place;
        self.change = Change::of(done.place, op, &done.answer);
        Ok(Reply {
            place: done.place,
            answer: done.answer,
            split,
        })
    }

    // With a count that nobody reads.
    fn ask_over<R: Wait, L: Ledger>(
        &mut self,
        rt: &R,
        op: &Op,
        blank: Blank,
    ) -> Result<Reply, CallFault>
        requires name { blank.name ≡ L.name }
        requires parts { blank.parts ≡ L.parts }
        requires one_part { blank.parts ≡ 1 }
        requires valid { IsValid op.now }
        ensures asked { Asked I.WIDTH op.now self.old self.new result }
        ensures whole { IsWhole self.old }
        ensures store { Keeps self.old self.new }
    {
        let mut steps = Steps::<L>::new(blank);
        self.ask_counted(rt, op, &mut steps)
    }

    /// Answers a call, and adds it to the history. If the call finds a leaf full, that leaf is split.
    pub fn ask<R: Wait>(&mut self, rt: &R, op: &Op) -> Result<Reply, CallFault>
        requires { IsValid op.now }
        ensures asked { Asked I.WIDTH op.now self.old self.new result }
        ensures now { DoesNow (λ reply. reply.answer) op.now self.old self.new result }
        ensures whole { IsWhole self.old }
        ensures store { Keeps self.old self.new }
    {
        self.ask_over::<R, Brand>(rt, op, Blank::new(1))
    }
}
