//! A store over two files, which continues over the other one while it is called.
ghost use Rattle.std.specs.Prelude.{◌≡◌, Bool, [], false, true, None, IfOk, IfErr, IfSome, ⊤};
ghost use Rattle.store_file.specs.Closed.{ClosesStore};
ghost use Rattle.store_file.specs.Either.{chosen_of, other_of};
ghost use Rattle.store_file.specs.Moving.{RotatesAbove};
ghost use Rattle.store_file.specs.Opened.{IsFirst, first_pass};
ghost use Rattle.store_file.specs.Rotating.{ClosesMoved, rotating_origin};
ghost use Rattle.store_file.specs.Waiting.{EndsUnsynced};
ghost use Rattle.store_client.specs.Caller.{Keeps, world_seen};
ghost use Rattle.pisrakun.specs.Fresh.{IsNewIn, new_in};
ghost use Rattle.pisrakun.specs.Now.{IsWhole};
ghost use Rattle.pisrakun.specs.Rotating.{OpensRotating, RefusesRotating};

use crate::file_store::Found;
use crate::object_store::ObjectStore;
use disk_trait::LogDisk;
use index_layer::Index;
use sessions::{Start, Turn};
use std::alloc::Global;
use std::sync::Wait;
use store_file::{
    AtSync, ClosedPair, EitherCause, NotEither, NotPaired, NotRotatedOver, OpenedEither, OverFile,
    Rotating, Rotation, Which, close_rotating, let_rotate, open_either, open_either_at_sync,
    rotate_above,
};

/// A store over two files. When its log has more records than it may (`set_most_records`), a call lets it continue over the
/// other file, while the others call. `rotate_above` does so at any time. Its changes are written as those of a `FileStore`,
/// if `O` is `OverFile`, or of a `BufferedStore`, if `O` is `AtSync`.
pub type RotatingStore<I, D, O> = ObjectStore<I, D, Rotating<O>>;

/// A store that was opened over two files.
pub struct OpenedRotating<I: Index, D: LogDisk, O: Start> {
    pub store: RotatingStore<I, D, O>,
    /// The file over which the store begins.
    pub which: Which,
    pub found: Found,
}

impl<I: Index, D: LogDisk> ObjectStore<I, D, Rotating<OverFile>> {
    /// Opens a store over two files, as `FileStore::open_pair`. It keeps the drive of the other file, over which
    /// `rotate_above` continues it.
    pub fn open_pair<R: Wait>(
        rt: &R,
        alloc: Global,
        first: D,
        first_file: &str,
        second: D,
        second_file: &str,
        bucket: u32,
    ) -> Result<OpenedRotating<I, D, OverFile>, NotEither<D>>
        ensures opened { IfOk result (λ o. OpensRotating D.drive I.WIDTH false bucket first_file.now second_file.now first
            second o.which o.store.pass o.found.objects o.found.latest o.found.records) }
        ensures new { IfOk result (λ o. IsNewIn 0 o.store) }
        ensures refused { RefusesRotating D.drive I.WIDTH false bucket first_file.now second_file.now first second result }
    {
        match open_either::<I, D>(alloc, first, first_file, second, second_file, bucket) {
            Ok(opened) => with_second(rt, alloc, opened),
            Err(refused) => Err(refused),
        }
    }
}

impl<I: Index, D: LogDisk> ObjectStore<I, D, Rotating<AtSync>> {
    /// Opens a store over two files, as `BufferedStore::open_pair`. It keeps the drive of the other file, over which
    /// `rotate_above` continues it.
    pub fn open_pair<R: Wait>(
        rt: &R,
        alloc: Global,
        first: D,
        first_file: &str,
        second: D,
        second_file: &str,
        bucket: u32,
    ) -> Result<OpenedRotating<I, D, AtSync>, NotEither<D>>
        ensures opened { IfOk result (λ o. OpensRotating D.drive I.WIDTH true bucket first_file.now second_file.now first
            second o.which o.store.pass o.found.objects o.found.latest o.found.records) }
        ensures new { IfOk result (λ o. IsNewIn 0 o.store) }
        ensures refused { RefusesRotating D.drive I.WIDTH true bucket first_file.now second_file.now first second result }
    {
        match open_either_at_sync::<I, D>(alloc, first, first_file, second, second_file, bucket) {
            Ok(opened) => with_second(rt, alloc, opened),
            Err(refused) => Err(refused),
        }
    }
}

impl<I: Index, D: LogDisk, O: Start> ObjectStore<I, D, Rotating<O>> {
    /// Lets the log have so many records. One of 256 calls of each client, its first one among them, looks at the log. If it
    /// has more records, that call lets the store continue over the other file before it is answered. Until you set another
    /// number, it is 4,194,304: four for each of the most objects that a store may have. If twice the records of a fresh log
    /// are more than this number, they count in its place. If a call can't let the store continue and the store goes on over
    /// its own file, no call tries again until the log has grown by an eighth of the number.
    pub fn set_most_records<R: Wait>(&mut self, rt: &R, most: u64)
        ensures { self.new ≡ self.old }
    {
        let turn = Turn { most, due: most };
        self.store.set_turn(rt, &mut self.pass, turn);
    }

    /// Writes the records that wait, if any do, and ends the store. Both drives come back. They still lock their files: drop
    /// both before you open the files again.
    pub fn close(self) -> ClosedPair<D>
        ensures closes { result.lost ≡ None → ClosesMoved D.drive I.WIDTH self.pass result.disk }
        ensures lost { IfSome result.lost (EndsUnsynced D.drive I.WIDTH true self.pass result.disk) }
    {
        let (store, pass) = self.into_parts();
        close_rotating(store, pass)
    }
}

impl<I: Index, D: LogDisk, O: Start> ObjectStore<I, D, O> {
    /// Continues the store over its second file, if its log has more than `records` records and it has such a file. The
    /// objects and the leaves are written there as a fresh log. Then the log of the first file is emptied, and it is the
    /// second file from now on. The history and its places go on. A fresh log has a record for each object and two for each
    /// split that led to its leaves, so let `records` be at least four times as many as there are objects.
    ///
    /// After `Stays` the store goes on over its own file. After the other two it takes no more calls: close it, drop both
    /// drives, and open both files again.
    pub fn rotate_above<R: Wait>(
        &mut self,
        rt: &R,
        records: u64,
    ) -> Result<Rotation, NotRotatedOver>
        ensures rotated { RotatesAbove D.drive I.WIDTH records self.old.pass self.new.pass result }
        ensures rest { self.new ≡ record self.old { pass = self.new.pass } }
        ensures now { world_seen self.new.pass ≡ world_seen self.old.pass }
        ensures whole { IsWhole self.old }
        ensures store { Keeps self.old self.new }
    {
        rotate_above(rt, &self.store, &mut self.pass, records)
    }
}

// Lets an opened store keep the drive of the other file.
fn with_second<I: Index, D: LogDisk, O: Start, R: Wait>(
    rt: &R,
    alloc: Global,
    opened: OpenedEither<I, D, O>,
) -> Result<OpenedRotating<I, D, O>, NotEither<D>>
    requires logged { O.unlogged → ⊥ }
    requires still { (start : D) (waits moves : Bool) → O.is (D.drive start) waits moves → moves ≡ false }
    requires first { IsFirst opened.store opened.pass }
    requires new { opened.pass.seen ≡ [] }
    ensures kept { IfOk result (λ o. (o.store ≡ new_in 0 (first_pass o.store.pass.lock (rotating_origin opened.pass.origin)))
        × (o.which ≡ opened.which)
        × (o.found ≡ record { objects = opened.points; latest = opened.latest; records = opened.records })) }
    ensures back { IfErr result (λ e. (e.cause ≡ EitherCause.Memory) × (other_of opened.which e.first e.second ≡ opened.spare)
        × ClosesStore D.drive I.WIDTH (λ start. ⊤) opened.pass (chosen_of opened.which e.first e.second)) }
{
    let OpenedEither {
        store,
        pass,
        points,
        latest,
        records,
        spare,
        which,
    } = opened;
    let found = Found {
        objects: points,
        latest,
        records,
    };
    match let_rotate(rt, alloc, store, pass, spare) {
        Ok((store, pass)) => Ok(OpenedRotating {
            store: ObjectStore::from_parts(alloc, store, pass),
            which,
            found,
        }),
        Err(NotPaired { disk, spare }) => Err(in_order(which, disk, spare)),
    }
}

// Both drives, that of the first file first.
fn in_order<D: LogDisk>(which: Which, chosen: D, other: D) -> NotEither<D>
    ensures cause { result.cause ≡ EitherCause.Memory }
    ensures chosen { chosen_of which result.first result.second ≡ chosen }
    ensures other { other_of which result.first result.second ≡ other }
{
    let (first, second) = match which {
        Which::First => (chosen, other),
        Which::Second => (other, chosen),
    };
    NotEither {
        first,
        second,
        cause: EitherCause::Memory,
    }
}
