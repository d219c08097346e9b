//! A book behind a lock.
ghost use Rattle.std.specs.Prelude.{◌≡◌, ◌+◌, ◌<◌, ◌≤◌, ◌^◌, length, true, Some, None, IfOk, IfErr, IfSome, OnOk};
ghost use Rattle.std.specs.List.{AllByRecursion};
ghost use Rattle.std.specs.Result.{result_err};
ghost use Rattle.zorder.specs.Key.{IsPoint};
ghost use Rattle.plain_list.specs.Answer.{FitsOp};
ghost use Rattle.plain_list.specs.World.{IsWorld};
ghost use Rattle.plain_list.specs.History.{call_count, failed_cell, world_after};
ghost use Rattle.plain_list.specs.Size.{full_leaf};
ghost use Rattle.plain_list.specs.State.{ComesBySplits, state_after};
ghost use Rattle.index_layer.specs.Leaves.{names_of};
ghost use Rattle.point_table.specs.Sized.{StandsBySize};
ghost use Rattle.plain_list.specs.declared.entries.Lost.{Lost};
ghost use Rattle.kept_log.specs.Journal.{log_in, moves_in};
ghost use Rattle.commit_book.specs.IsBook.{IsBook, AreBooks, AreMovedBooks};
ghost use Rattle.commit_book.specs.Moves.{IsListMemory, StopsBook, may_move_refusal, move_refusal, with_fresh_log};
ghost use Rattle.commit_book.specs.OpenedLog.{IsOpenedLog};
ghost use Rattle.commit_book.specs.Rotation.{HasContent};
ghost use Rattle.commit_book.specs.Refusals.{IsRefusedBy, IsDisk, IsMemory, IsMemoryOrDisk, IsNoFault, LeavesRefused, closed_refusal, call_refusal, update_refusal, begin_refusal, prepared_refusal, abandon_refusal};
ghost use Rattle.commit_book.specs.Answers.{IsUpdate, IsQuery, Notes, Replies, is_still_since};
ghost use Rattle.commit_book.specs.Batches.{RepliesAll, LeavesRefusedAll, batch_refusal};
ghost use Rattle.commit_book.specs.BookView.{StandsAfter, next_number};
ghost use Rattle.commit_book.specs.RoomLeft.{room_of};
ghost use Rattle.commit_book.specs.Syncs.{Syncs, lost_sync};
ghost use Rattle.commit_book.specs.SplitSteps.{Begins, CanPrepare, Installs, Abandons};
ghost use Rattle.sessions.specs.Shared.{HasWorld, StandsBefore, StartsAs, TellsFull};

use crate::start::Start;
use book_lock::Held;
use commit_book::{Anew, BatchDone, Book, BookFault, Content, Done, NotMoved, Room, Snapshot};
use disk_trait::LogDisk;
use index_layer::Index;
use plain_list::{Op, World};
use recovery::Opened;
use split_log::SplitLog;
use split_prepare::{Prepared, SplitTicket};
use std::alloc::{AllocFailed, Global};
use std::marker::{Model, PhantomData};
use zorder::{Memory, Name, Point, Region, coordinates_fit};

/// A copy of all objects, and the place of the last call before it, or 0 if there was none.
#[derive(Drop)]
pub struct WorldAt {
    pub world: World,
    pub place: u64,
}

/// When a store goes over to its second file by itself, in numbers of log records.
#[derive(Clone, Copy, Debug, PartialEq, Eq)]
pub struct Turn {
    /// How many records the program lets the log have.
    pub most: u64,
    /// The store goes over at the next look that finds more than so many.
    pub due: u64,
}

/// How many records a log may have unless the program says otherwise: four for each of the most objects that a store may
/// have.
const MOST_RECORDS: u64 = 1 << 22;

/// A book whose objects are a world. `O` is what is known of the drive over which its log was opened.
#[derive(Drop)]
pub struct SharedBook<I: Index, D: LogDisk, O: Start> {
    /// Behind a pointer, so that only the pointer moves out of the lock and back.
    book: Box<Book<I, D>>,
    /// The drive of a second file, over which the store may continue. Contracts see the book alone.
    spare: Option<D>,
    turn: Turn,
    start: PhantomData<O>,
}

impl<I: Index, D: LogDisk, O: Start> Model for SharedBook<I, D, O> {
    ghost use Rattle.std.specs.Prelude.{◌≡◌, true, is_some};
    ghost use Rattle.kept_log.specs.Journal.{moves_in};
    ghost use Rattle.commit_book.specs.BookView.{BookView};
    ghost use Rattle.sessions.specs.Shared.{IsShared};

    ghost Value = { BookView D };

    ghost view = { λ s. s.book.value };

    ghost invariant = { λ s. IsShared D.drive O.unlogged O.is s.book.value × (is_some s.spare ≡ true → moves_in s.book.value.log ≡ true) };
}

impl<I: Index, D: LogDisk, O: Start> Held for SharedBook<I, D, O> {
    ghost use Rattle.sessions.specs.Shared.{origin_of};

    ghost entries = { λ s. s.entries };

    ghost origin = { origin_of D.drive };

    fn events(&self) -> u64 {
        self.book.events()
    }

    fn is_slow(&self) -> bool {
        self.book.has_log()
    }
}

impl<I: Index, D: LogDisk, O: Start> SharedBook<I, D, O> {
    /// If memory runs out, the call returns the book.
    pub(crate) fn of(alloc: Global, book: Book<I, D>) -> Result<SharedBook<I, D, O>, Book<I, D>>
        requires world { IsWorld (world_after book.opening.world book.entries) }
        requires start { StartsAs D.drive O.unlogged O.is book.log }
        ensures ok { IfOk result (λ s. s ≡ book) }
        ensures back { IfErr result (λ b. b ≡ book) }
    {
        match Box::new(alloc, book) {
            Ok(book) => Ok(SharedBook {
                book,
                spare: None,
                turn: Turn {
                    most: MOST_RECORDS,
                    due: MOST_RECORDS,
                },
                start: PhantomData,
            }),
            Err(AllocFailed { value }) => Err(value),
        }
    }

    pub(crate) fn into_book(self) -> Book<I, D>
        ensures book { result ≡ self }
        ensures start { StartsAs D.drive O.unlogged O.is result.log }
        ensures world { HasWorld result }
    {
        let (book, _spare) = self.into_parts();
        book
    }

    /// The book, and the drive of the second file, if there is one.
    pub(crate) fn into_parts(self) -> (Book<I, D>, Option<D>)
        ensures book { result.0 ≡ self }
        ensures start { StartsAs D.drive O.unlogged O.is result.0.log }
        ensures world { HasWorld result.0 }
    {
        let SharedBook {
            book,
            spare,
            turn: _,
            start: _,
        } = self;
        (Box::into_inner(book), spare)
    }

    /// What is known of the drive over which the log was opened holds. This function only says so to proofs.
    pub(crate) fn started(&self)
        ensures { StartsAs D.drive O.unlogged O.is self.now.log }
    {
        let _start = &self.start;
    }

    /// As the book's call of this name.
    pub fn room(&self) -> Room
        ensures room { result ≡ room_of self.now }
        ensures book { IsBook D.drive I.WIDTH self.now }
    {
        self.book.room()
    }

    /// As the book's call of this name.
    pub fn closed(&self) -> Option<u64>
        ensures closed { result ≡ failed_cell self.now.entries }
        ensures book { IsBook D.drive I.WIDTH self.now }
    {
        self.book.closed()
    }

    /// Copies the objects.
    pub(crate) fn world(&self) -> Result<World, Memory>
        ensures world { IfOk result (λ w. w ≡ world_after self.now.opening.world self.now.entries) }
        ensures is_world { IfOk result (λ w. IsWorld w) }
    {
        let content = self.book.content()?;
        Ok(content.world)
    }

    /// Copies the objects, and returns the place of the last call too.
    pub(crate) fn world_at(&self) -> Result<WorldAt, Memory>
        ensures world { IfOk result (λ at. at.world ≡ world_after self.now.opening.world self.now.entries) }
        ensures place { IfOk result (λ at. at.place ≡ call_count self.now.entries) }
        ensures is_world { IfOk result (λ at. IsWorld at.world) }
        ensures book { IsBook D.drive I.WIDTH self.now }
    {
        let place = self.book.calls();
        let world = self.world()?;
        Ok(WorldAt { world, place })
    }

    /// As the book's call of this name. A closed book returns its fault.
    pub fn content(&self) -> Result<Content, BookFault>
        ensures world { IfOk result (λ c. c.world ≡ world_after self.now.opening.world self.now.entries) }
        ensures leaves { IfOk result (λ c. c.leaves ≡ (state_after I.WIDTH self.now.opening self.now.entries).leaves) }
        ensures comes { IfOk result (λ c. ComesBySplits I.WIDTH c.leaves) }
        ensures is_world { IfOk result (λ c. IsWorld c.world) }
        ensures refused { IsRefusedBy IsMemory (closed_refusal self.now.entries) result }
        ensures book { IsBook D.drive I.WIDTH self.now }
    {
        self.check_open()?;
        Ok(self.book.content()?)
    }

    /// As the book's call of this name. A closed book returns its fault.
    pub(crate) fn anew(&self, alloc: Global) -> Result<Anew<I>, BookFault>
        ensures world { IfOk result (λ a. a.content.world ≡ world_after self.now.opening.world self.now.entries) }
        ensures leaves { IfOk result (λ a. a.content.leaves ≡ names_of (I.leaves a.index)) }
        ensures stands { IfOk result (λ a. StandsBySize I.WIDTH self.now.bucket a.content.world (I.leaves a.index)) }
        ensures comes { IfOk result (λ a. ComesBySplits I.WIDTH a.content.leaves) }
        ensures is_world { IfOk result (λ a. IsWorld a.content.world) }
        ensures refused { IsRefusedBy IsMemory (closed_refusal self.now.entries) result }
        ensures book { IsBook D.drive I.WIDTH self.now }
    {
        self.check_open()?;
        Ok(self.book.anew(alloc)?)
    }

    // The fault of a closed book.
    fn check_open(&self) -> Result<(), BookFault>
        ensures refused { result_err result ≡ closed_refusal self.now.entries }
        ensures book { IsBook D.drive I.WIDTH self.now }
    {
        match self.book.closed() {
            Some(cell) => Err(BookFault::Closed { cell }),
            None => Ok(()),
        }
    }

    /// The leaf to split next, or `None` if no leaf is due.
    pub(crate) fn full(&self) -> Option<Name>
        ensures full { result ≡ full_leaf I.WIDTH self.now.bucket (state_after I.WIDTH self.now.opening self.now.entries) }
        ensures book { IsBook D.drive I.WIDTH self.now }
    {
        self.book.full()
    }

    /// The leaf to split next, or the fault of a closed book.
    pub(crate) fn next_full(&self) -> Result<Option<Name>, BookFault>
        ensures next { TellsFull I.WIDTH self.now result }
        ensures book { IsBook D.drive I.WIDTH self.now }
    {
        self.check_open()?;
        Ok(self.book.full())
    }

    /// As the book's call of this name.
    pub(crate) fn update(&mut self, session: u8, row: u32, op: &Op) -> Result<Done, BookFault>
        requires { IsUpdate op.now }
        ensures ok { IfOk result (λ d. Replies I.WIDTH self.old self.new session row op.now d.place d.answer d.full) }
        ensures refused { IsRefusedBy IsMemoryOrDisk (update_refusal self.old op.now) result }
        ensures err { IfErr result (LeavesRefused D.drive (Lost.Call session row op.now) self.old self.new) }
        ensures book { AreBooks D.drive I.WIDTH self.old self.new }
    {
        told(*op);
        self.book.update(session, row, op)
    }

    /// As the book's call of this name.
    pub(crate) fn update_all(
        &mut self,
        alloc: Global,
        session: u8,
        row: u32,
        ops: &[Op],
    ) -> Result<BatchDone, BookFault>
        requires updates { AllByRecursion IsUpdate ops.now }
        requires rows { row + length ops.now ≤ 2 ^ 32 }
        ensures ok { IfOk result (λ d. RepliesAll I.WIDTH self.old self.new session row ops.now d.place d.answers.items d.full) }
        ensures refused { IsRefusedBy IsMemoryOrDisk (batch_refusal self.old ops.now) result }
        ensures err { IfErr result (LeavesRefusedAll D.drive session row ops.now self.old self.new) }
        ensures book { AreBooks D.drive I.WIDTH self.old self.new }
    {
        told_all(ops);
        self.book.update_all(alloc, session, row, ops)
    }

    /// As the book's call of this name.
    pub(crate) fn snapshot(
        &mut self,
        session: u8,
        row: u32,
        op: &Op,
    ) -> Result<Snapshot<I>, BookFault>
        requires { IsQuery op.now }
        ensures ok { IfOk result (λ s. Notes self.old self.new session row op.now s.place) }
        ensures index { IfOk result (λ s. StandsBefore I.WIDTH self.old self.new (I.leaves s.index)) }
        ensures world { HasWorld self.old }
        ensures refused { IsRefusedBy IsMemory (call_refusal self.old.kept self.old.entries) result }
        ensures err { IfErr result (λ _. self.new ≡ self.old) }
        ensures book { AreBooks D.drive I.WIDTH self.old self.new }
    {
        told(*op);
        self.book.snapshot(session, row, op)
    }

    /// As the book's call of this name.
    pub(crate) fn note(&mut self, session: u8, row: u32, op: &Op) -> Result<u64, BookFault>
        requires { IsQuery op.now }
        ensures ok { IfOk result (λ place. Notes self.old self.new session row op.now place) }
        ensures refused { IsRefusedBy IsMemory (call_refusal self.old.kept self.old.entries) result }
        ensures err { IfErr result (λ _. self.new ≡ self.old) }
        ensures book { AreBooks D.drive I.WIDTH self.old self.new }
    {
        told(*op);
        self.book.note(session, row, op)
    }

    /// As the book's call of this name.
    pub(crate) fn glance(&self) -> Result<I, Memory>
        ensures index { IfOk result (λ index. StandsAfter I.WIDTH self.now (I.leaves index)) }
        ensures world { HasWorld self.now }
    {
        self.book.glance()
    }

    /// The index, and the place of the last call.
    pub(crate) fn view(&self) -> Result<Snapshot<I>, Memory>
        ensures index { IfOk result (λ s. StandsAfter I.WIDTH self.now (I.leaves s.index)) }
        ensures place { IfOk result (λ s. s.place ≡ call_count self.now.entries) }
        ensures world { HasWorld self.now }
        ensures book { IsBook D.drive I.WIDTH self.now }
    {
        let index = self.book.glance()?;
        Ok(Snapshot {
            index,
            place: self.book.calls(),
        })
    }

    /// As the book's call of this name.
    pub fn sync(&mut self) -> Result<u64, BookFault>
        ensures ok { IfOk result (Syncs self.old self.new) }
        ensures refused { IsRefusedBy IsMemoryOrDisk (call_refusal self.old.kept self.old.entries) result }
        ensures err { IfErr result (LeavesRefused D.drive lost_sync self.old self.new) }
        ensures book { AreBooks D.drive I.WIDTH self.old self.new }
    {
        self.book.sync()
    }

    /// As the book's call of this name.
    pub(crate) fn is_still_since(&self, events: u64) -> bool
        ensures { result ≡ is_still_since events self.now.entries }
    {
        self.book.is_still_since(events)
    }
}

impl<I: Index, D: LogDisk, O: Start> SharedBook<I, D, O> {
    /// As the book's call of this name.
    pub(crate) fn begin(&mut self, name: &Name) -> Result<SplitTicket, BookFault>
        ensures ok { IfOk result (λ t. Begins I.WIDTH self.old self.new name.now t) }
        ensures ticket { IfOk result (λ t. CanPrepare I.WIDTH t) }
        ensures refused { IsRefusedBy IsMemoryOrDisk (begin_refusal I.WIDTH self.old name.now) result }
        ensures err { IfErr result (LeavesRefused D.drive (Lost.Begin (next_number I.WIDTH self.old) name.now) self.old self.new) }
        ensures book { AreBooks D.drive I.WIDTH self.old self.new }
    {
        self.book.begin(name)
    }

    /// As the book's call of this name.
    pub(crate) fn install(&mut self, prepared: &Prepared) -> Result<(), BookFault>
        requires { prepared.now.width ≡ I.WIDTH }
        ensures ok { OnOk result (Installs I.WIDTH self.old self.new prepared.now.number prepared.now.name) }
        ensures refused { IsRefusedBy IsMemoryOrDisk (prepared_refusal I.WIDTH self.old prepared.now) result }
        ensures err { IfErr result (LeavesRefused D.drive (Lost.Install prepared.now.number) self.old self.new) }
        ensures book { AreBooks D.drive I.WIDTH self.old self.new }
    {
        self.book.install(prepared)
    }

    /// As the book's call of this name.
    pub(crate) fn abandon(&mut self, number: u64) -> Result<(), BookFault>
        ensures ok { OnOk result (Abandons self.old self.new number) }
        ensures refused { IsRefusedBy IsDisk (abandon_refusal I.WIDTH self.old number) result }
        ensures err { IfErr result (LeavesRefused D.drive (Lost.Abandon number) self.old self.new) }
        ensures book { AreBooks D.drive I.WIDTH self.old self.new }
    {
        self.book.abandon(number)
    }
}

impl<I: Index, D: LogDisk, O: Start> SharedBook<I, D, O> {
    /// Keeps the drive of a second file, over which the store may continue. Returns the drive that was kept before, if
    /// there was one.
    pub fn put_spare(&mut self, spare: D) -> Option<D>
        requires { moves_in self.old.log ≡ true }
        ensures { self.new ≡ self.old }
    {
        self.spare.replace(spare)
    }

    /// Returns the drive of the second file, if there is one, and keeps it no longer.
    pub fn take_spare(&mut self) -> Option<D>
        ensures same { self.new ≡ self.old }
        ensures moves { IfSome result (λ _. moves_in self.old.log ≡ true) }
    {
        self.spare.take()
    }

    /// When the store goes over to its second file by itself.
    pub fn turn(&self) -> Turn {
        self.turn
    }

    /// Sets when the store goes over to its second file by itself.
    pub fn set_turn(&mut self, turn: Turn)
        ensures { self.new ≡ self.old }
    {
        self.turn = turn;
    }

    /// As the book's call of this name.
    pub fn check_move(&self) -> Result<(), BookFault>
        ensures { IsRefusedBy IsNoFault (may_move_refusal I.WIDTH self.now) result }
    {
        self.book.check_move()
    }

    /// As the book's call of this name.
    pub fn move_log(&mut self, opened: Opened<D>) -> Result<Option<SplitLog<D>>, NotMoved<D>>
        requires moves { moves_in self.old.log ≡ true }
        requires opened { IsOpenedLog D.drive I.WIDTH opened.seen opened.start.value opened.log }
        requires content { HasContent I.WIDTH self.old opened.seen }
        ensures ok { IfOk result (λ log. (move_refusal I.WIDTH self.old opened.seen.begun ≡ None) × (log ≡ log_in self.old.log)) }
        ensures moved { IfOk result (λ _. self.new ≡ with_fresh_log I.WIDTH opened.seen opened.log opened.start.value self.old) }
        ensures refused { IfErr result (λ e. move_refusal I.WIDTH self.old opened.seen.begun ≡ Some e.fault) }
        ensures back { IfErr result (λ e. (self.new ≡ self.old) × (e.opened ≡ opened)) }
        ensures book { AreMovedBooks D.drive I.WIDTH self.old self.new }
    {
        self.book.move_log(opened)
    }

    /// As the book's call of this name.
    pub fn stop(&mut self) -> Result<(), BookFault>
        requires moves { moves_in self.old.log ≡ true }
        ensures ok { IfOk result (λ _. StopsBook self.old self.new) }
        ensures refused { IsRefusedBy (IsListMemory self.old.kept) (call_refusal self.old.kept self.old.entries) result }
        ensures err { IfErr result (λ _. self.new ≡ self.old) }
        ensures book { AreBooks D.drive I.WIDTH self.old self.new }
    {
        self.book.stop()
    }
}

// The numbers of an operation have 64 and 32 bits. This function only says so to proofs.
fn told(op: Op)
    ensures { FitsOp op }
{
    match op {
        Op::Put { id, at, moment } => told_object(id, at, moment),
        Op::Move { id, at, moment } => told_object(id, at, moment),
        Op::Remove { id } => told_id(id),
        Op::Find { id } => told_id(id),
        Op::Within { region } => told_region(region),
        Op::Near { at, k: _ } => coordinates_fit(at),
    }
}

// The same for several operations.
fn told_all(ops: &[Op])
    ensures { AllByRecursion FitsOp ops.now }
{
    for op in ops {
        told(*op);
    }
}

fn told_object(id: u64, at: Point, moment: u64)
    ensures { (id < 2 ^ 64) × IsPoint at × (moment < 2 ^ 64) }
{
    told_id(id);
    coordinates_fit(at);
    let _ = moment;
}

fn told_id(id: u64)
    ensures { id < 2 ^ 64 }
{
    let _ = id;
}

fn told_region(region: Region)
    ensures { IsPoint region.lo × IsPoint region.hi }
{
    coordinates_fit(region.lo);
    coordinates_fit(region.hi);
}
