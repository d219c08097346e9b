//! Continues a store over its second file while its history goes on, and its clients call.
ghost use Rattle.std.specs.Prelude.{◌≡◌, false, true, None, is_some, IfOk, IfErr};
ghost use Rattle.kept_log.specs.Journal.{moves_in};
ghost use Rattle.log_compact.specs.Clearing.{Clears};
ghost use Rattle.commit_book.specs.IsBook.{IsBook};
ghost use Rattle.commit_book.specs.OpenedLog.{IsOpenedLog};
ghost use Rattle.commit_book.specs.Refusals.{call_refusal};
ghost use Rattle.commit_book.specs.RoomLeft.{cells_where};
ghost use Rattle.commit_book.specs.Rotation.{HasContent};
ghost use Rattle.commit_book.specs.Moves.{may_move_refusal};
ghost use Rattle.store_file.specs.Moving.{AfterSync, HasRoom, IsStopped, LeavesUnbegun, NotReplaced, NotTaken, NotTurned, Replaces};
ghost use Rattle.store_file.specs.Moving.{RotatesAbove, TakesOver, Tends, TurnsBook, has_stopped, rotation_of, stay_cause};

use crate::rotating::{BeginCause, NotBegun, RotateCause, begin_with};
use book_lock::Pass;
use commit_book::{BookFault, MOST_EVENTS, NotMoved};
use disk_trait::LogDisk;
use index_layer::Index;
use log_compact::{NotCleared, clear_log};
use recovery::Opened;
use sessions::{SharedBook, Start, Store, Turn};
use split_log::MOST_CELLS;
use std::sync::Wait;
use thiserror::Error;

/// What a call of `rotate_above` found or did.
#[derive(Clone, Copy, Debug, PartialEq, Eq)]
pub enum Rotation {
    /// The log has at most so many records, so the store goes on over its own file.
    Enough,
    /// The store has no second file, so it goes on over its own file, if it has one.
    NoSpare,
    /// The store continues over its second file. Its first file has an empty log, and is its second file from now on.
    Done,
}

/// Why a store stays over its own file. Nothing was written to the second file, and the store takes calls as before.
#[derive(Clone, Copy, Debug, PartialEq, Eq, Error)]
pub enum StayCause {
    /// This split is open. Try again: a split ends after some microseconds.
    #[error("split {number} is open")]
    Splitting { number: u64 },
    /// The history takes no more entries than a history may have that is kept as a list (`commit_book::MOST_EVENTS`).
    #[error("the history is full")]
    HistoryFull,
    /// As for a store that is rotated.
    #[error("{cause}")]
    Refused { cause: RotateCause },
}

/// Why a store doesn't continue over its second file.
#[derive(Clone, Copy, Debug, PartialEq, Eq, Error)]
pub enum NotRotatedOver {
    /// The store goes on over its own file, and keeps its second file.
    #[error("{cause}")]
    Stays { cause: StayCause },
    /// The first drive failed while the records that waited for a sync were written. Nothing was written to the second
    /// file. The store takes no more calls. Close it, drop the drives, and open both files again.
    #[error("the drive failed while the records that waited were written")]
    Unsynced,
    /// The second drive failed, so its file may have all objects. Nothing may be appended to the first log while it has
    /// them, so the store takes no more calls. Close it, drop the drives, and open both files again.
    #[error("the second drive failed")]
    SpareFailed,
    /// The store has its log in the second file. But the first drive failed while its log was emptied, so nothing may be
    /// appended to the second log. The store takes no more calls. Close it, drop the drives, and open both files again.
    #[error("the first drive failed while its log was emptied")]
    FirstFailed,
}

/// What is left of a move that didn't continue a store over a second file.
#[derive(Drop)]
pub(crate) enum NotMovedOver<D: Drop> {
    /// The second drive, on which nothing was written.
    Stays { spare: D, cause: StayCause },
    /// The second drive, on which nothing was written. The first drive failed while the records that waited were written.
    Unsynced { spare: D },
    /// The second drive. It failed, or has a log that did not replace the book's log.
    SpareFailed { spare: D },
    /// The first drive, which failed while its log was emptied.
    FirstFailed { disk: D },
}

/// Continues a store over its second file, if its log has more than so many records. It does so inside a call: other
/// callers wait meanwhile, and nobody is joined. The history and the places go on. The second file has at most 17 bytes.
/// First the records that wait for a sync are written, if any do: so a crash finds the same objects in either log. The
/// objects and leaves are written and synced to the second file as a fresh log, which then replaces the store's log. Then
/// the first log is emptied, and the first file is the second one from now on, ready for the next time.
///
/// After a failure the drive that failed is kept as that of the second file, so that the close returns it.
pub fn rotate_above<I: Index, D: LogDisk, O: Start, R: Wait>(
    rt: &R,
    store: &Store<I, D, O>,
    pass: &mut Pass<SharedBook<I, D, O>>,
    records: u64,
) -> Result<Rotation, NotRotatedOver>
    requires lock { pass.old.lock ≡ store.now }
    requires off { pass.old.holds ≡ false }
    ensures { RotatesAbove D.drive I.WIDTH records pass.old pass.new result }
{
    let mut book = store.hold(rt, pass);
    let rotated = rotate_book(&mut book, records);
    let grown = has_stopped(&rotated);
    store.release(pass, book, grown);
    rotated
}

/// Continues a store over its second file, if it is due: as `rotate_above`, with the number of records that the store's
/// `Turn` has. It is what a call of a client does now and then. `Some` says that the store was stopped, and at which record.
/// The next calls say so too.
pub fn tend<I: Index, D: LogDisk, O: Start, R: Wait>(
    rt: &R,
    store: &Store<I, D, O>,
    pass: &mut Pass<SharedBook<I, D, O>>,
) -> Option<u64>
    requires lock { pass.old.lock ≡ store.now }
    requires off { pass.old.holds ≡ false }
    ensures { Tends D.drive I.WIDTH pass.old pass.new result }
{
    let mut book = store.hold(rt, pass);
    let records = book.turn().due;
    let rotated = rotate_book(&mut book, records);
    let grown = has_stopped(&rotated);
    let lost = if grown { book.closed() } else { None };
    store.release(pass, book, grown);
    lost
}

// Whether the book was stopped.
fn has_stopped(rotated: &Result<Rotation, NotRotatedOver>) -> bool
    ensures { result ≡ has_stopped rotated.now }
{
    match rotated {
        Ok(_) => false,
        Err(NotRotatedOver::Stays { .. }) => false,
        Err(NotRotatedOver::Unsynced) => true,
        Err(NotRotatedOver::SpareFailed) => true,
        Err(NotRotatedOver::FirstFailed) => true,
    }
}

// Continues a book over the drive that is kept for it, if its log has more than so many records.
fn rotate_book<I: Index, D: LogDisk, O: Start>(
    book: &mut SharedBook<I, D, O>,
    records: u64,
) -> Result<Rotation, NotRotatedOver>
    ensures turns { TurnsBook D.drive I.WIDTH records book.old book.new result }
    ensures book { IsBook D.drive I.WIDTH book.old }
{
    let Some(has) = records_of(book) else {
        return Ok(Rotation::NoSpare);
    };
    if has <= records {
        return Ok(Rotation::Enough);
    }
    let Some(spare) = book.take_spare() else {
        return Ok(Rotation::NoSpare);
    };
    let moved = move_book(book, spare);
    let rotated = keep_spare(book, moved);
    let left = records_of(book).unwrap_or(has);
    book.set_turn(turn_after(book.turn(), left, &rotated));
    rotated
}

// When a store goes over again whose log has so many records after a try. A fresh log may grow to twice its size at least.
// After a refusal the log grows by an eighth of what the program allows before the next try.
fn turn_after(turn: Turn, records: u64, rotated: &Result<Rotation, NotRotatedOver>) -> Turn {
    let due = match rotated {
        Ok(_) => turn.most.max(records.saturating_mul(2)),
        Err(_) => records.saturating_add(turn.most / 8),
    };
    Turn {
        most: turn.most,
        due,
    }
}

// How many records the log of a book has, those that wait among them, or `None` without a log.
fn records_of<I: Index, D: LogDisk, O: Start>(book: &SharedBook<I, D, O>) -> Option<u64>
    ensures records { result ≡ cells_where book.now.log }
    ensures book { IsBook D.drive I.WIDTH book.now }
{
    let room = book.room().records?;
    Some(MOST_CELLS - room)
}

// Keeps the drive that a move returned as that of the second file.
fn keep_spare<I: Index, D: LogDisk, O: Start>(
    book: &mut SharedBook<I, D, O>,
    moved: Result<D, NotMovedOver<D>>,
) -> Result<Rotation, NotRotatedOver>
    requires moves { moves_in book.old.log ≡ true }
    ensures same { book.new ≡ book.old }
    ensures rotation { result ≡ rotation_of moved }
{
    let (spare, rotation) = match moved {
        Ok(first) => (first, Ok(Rotation::Done)),
        Err(NotMovedOver::Stays { spare, cause }) => (spare, Err(NotRotatedOver::Stays { cause })),
        Err(NotMovedOver::Unsynced { spare }) => (spare, Err(NotRotatedOver::Unsynced)),
        Err(NotMovedOver::SpareFailed { spare }) => (spare, Err(NotRotatedOver::SpareFailed)),
        Err(NotMovedOver::FirstFailed { disk }) => (disk, Err(NotRotatedOver::FirstFailed)),
    };
    // `take_spare` has left none.
    let _none = book.put_spare(spare);
    rotation
}

// Writes the records that wait, writes a fresh log of the book on the second drive, and lets it replace the book's log.
fn move_book<I: Index, D: LogDisk, O: Start>(
    book: &mut SharedBook<I, D, O>,
    spare: D,
) -> Result<D, NotMovedOver<D>>
    requires moves { moves_in book.old.log ≡ true }
    ensures moved { IfOk result (λ first. AfterSync D.drive I.WIDTH book.old (λ mid. Replaces D.drive I.WIDTH Clears mid book.new spare first)) }
    ensures not { IfErr result (λ e. NotTurned D.drive I.WIDTH book.old book.new spare e) }
{
    // A book that keeps the list of its entries has no more room, and might lack memory for `stop`.
    if book.room().entries <= MOST_EVENTS {
        let cause = StayCause::HistoryFull;
        return Err(NotMovedOver::Stays { spare, cause });
    }
    if let Err(fault) = book.check_move() {
        let cause = stay_cause(&fault);
        return Err(NotMovedOver::Stays { spare, cause });
    }
    match book.sync() {
        Ok(_) => move_synced(book, spare),
        Err(BookFault::Disk { .. }) => Err(NotMovedOver::Unsynced { spare }),
        Err(_) => Err(NotMovedOver::Stays {
            spare,
            cause: StayCause::Refused {
                cause: RotateCause::Memory,
            },
        }),
    }
}

// Writes a fresh log of a book, none of whose records wait, on the second drive, and lets it replace the book's log.
fn move_synced<I: Index, D: LogDisk, O: Start>(
    book: &mut SharedBook<I, D, O>,
    spare: D,
) -> Result<D, NotMovedOver<D>>
    requires moves { moves_in book.old.log ≡ true }
    requires room { HasRoom book.old }
    requires may { may_move_refusal I.WIDTH book.old ≡ None }
    ensures moved { IfOk result (λ first. Replaces D.drive I.WIDTH Clears book.old book.new spare first) }
    ensures not { IfErr result (λ e. NotReplaced D.drive I.WIDTH book.old book.new spare e) }
{
    let Ok(content) = book.content() else {
        let cause = StayCause::Refused {
            cause: RotateCause::Memory,
        };
        return Err(NotMovedOver::Stays { spare, cause });
    };
    match begin_with::<I, D>(content, spare) {
        Ok(opened) => take_over(book, opened),
        Err(NotBegun { disk, cause }) => Err(not_begun(book, disk, cause)),
    }
}

// A store that isn't closed has content, unless memory runs out.
fn stay_cause(fault: &BookFault) -> StayCause
    ensures { result ≡ stay_cause fault.now }
{
    match fault {
        BookFault::Closed { cell } => StayCause::Refused {
            cause: RotateCause::Closed { cell: *cell },
        },
        BookFault::Splitting { number } => StayCause::Splitting { number: *number },
        BookFault::HistoryFull => StayCause::HistoryFull,
        _ => StayCause::Refused {
            cause: RotateCause::Memory,
        },
    }
}

// Lets a fresh log replace the book's log, and empties that log.
fn take_over<I: Index, D: LogDisk, O: Start>(
    book: &mut SharedBook<I, D, O>,
    opened: Opened<D>,
) -> Result<D, NotMovedOver<D>>
    requires moves { moves_in book.old.log ≡ true }
    requires unlisted { book.old.kept ≡ false }
    requires open { call_refusal book.old.kept book.old.entries ≡ None }
    requires opened { IsOpenedLog D.drive I.WIDTH opened.seen opened.start.value opened.log }
    requires content { HasContent I.WIDTH book.old opened.seen }
    ensures taken { IfOk result (λ first. TakesOver D.drive I.WIDTH Clears book.old book.new opened.seen opened.start.value
        opened.log first) }
    ensures not { IfErr result (λ e. NotTaken D.drive I.WIDTH book.old book.new opened.seen opened.start.value opened.log e) }
{
    match book.move_log(opened) {
        Ok(log) => match clear_log(log.unwrap()) {
            Ok(first) => Ok(first),
            Err(NotCleared { disk }) => {
                stop(book);
                Err(NotMovedOver::FirstFailed { disk })
            }
        },
        Err(NotMoved { fault: _, opened }) => {
            stop(book);
            Err(NotMovedOver::SpareFailed {
                spare: opened.log.give_back(),
            })
        }
    }
}

// The second drive comes back, if nothing was written on it. Otherwise the book is stopped.
fn not_begun<I: Index, D: LogDisk, O: Start>(
    book: &mut SharedBook<I, D, O>,
    spare: D,
    cause: BeginCause,
) -> NotMovedOver<D>
    requires moves { moves_in book.old.log ≡ true }
    requires unlisted { book.old.kept ≡ false }
    requires open { call_refusal book.old.kept book.old.entries ≡ None }
    ensures { LeavesUnbegun D.drive I.WIDTH book.old book.new spare cause result }
{
    match cause {
        BeginCause::Refused { cause } => NotMovedOver::Stays {
            spare,
            cause: StayCause::Refused { cause },
        },
        BeginCause::Unsure => {
            stop(book);
            NotMovedOver::SpareFailed { spare }
        }
    }
}

// Lets the book take no more calls. One that takes calls and keeps no list of its entries can always be stopped.
fn stop<I: Index, D: LogDisk, O: Start>(book: &mut SharedBook<I, D, O>)
    requires moves { moves_in book.old.log ≡ true }
    requires unlisted { book.old.kept ≡ false }
    requires open { call_refusal book.old.kept book.old.entries ≡ None }
    ensures { IsStopped D.drive I.WIDTH book.old book.new }
{
    if book.stop().is_err() {
        unreachable!();
    }
}
