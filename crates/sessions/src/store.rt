//! A book behind a lock, and calls on it.
ghost use Rattle.std.specs.Prelude.{◌≡◌, [], true, false, IfOk, IfErr};
ghost use Rattle.plain_list.specs.World.{IsWorld};
ghost use Rattle.kept_log.specs.Journal.{moves_in};
ghost use Rattle.sessions.specs.Shared.{origin_of, StartsAs};
ghost use Rattle.sessions.specs.Steps.{all_parts, MayGive, WasTaken, has_entry, has_given};

mod batches;
mod calls;
mod contents;
mod lanes;
mod looks;
mod moving;
mod passes;
mod runs;
mod settling;
mod splits;
mod syncing;

use crate::faults::has_entry;
use crate::shared::SharedBook;
use crate::start::Start;
use book_lock::{BookLock, Pass};
use commit_book::{Book, BookFault};
use disk_trait::LogDisk;
use index_layer::Index;
pub use lanes::{KeptRow, Lane};
use std::alloc::Global;
use std::marker::Model;
use std::sync::Wait;

/// A book for many threads.
pub struct Store<I: Index, D: LogDisk, O: Start> {
    lock: BookLock<SharedBook<I, D, O>>,
    keeps_spare: bool,
}

impl<I: Index, D: LogDisk, O: Start> Model for Store<I, D, O> {
    ghost use Rattle.atomic_table.specs.Seated.{TableId};

    ghost Value = { TableId };

    ghost view = { λ s. s.lock };
}

impl<I: Index, D: LogDisk, O: Start> Store<I, D, O> {
    /// A store of a book without entries, and the pass that has all parts of it. If memory runs out, the call returns the
    /// book.
    pub fn new(
        alloc: Global,
        book: Book<I, D>,
    ) -> Result<(Store<I, D, O>, Pass<SharedBook<I, D, O>>), Book<I, D>>
        requires entries { book.entries ≡ [] }
        requires world { IsWorld book.opening.world }
        requires start { StartsAs D.drive O.unlogged O.is book.log }
        ensures store { IfOk result (λ r. r.1 ≡ record {
          lock = r.0;
          seen = [];
          own = [];
          origin = origin_of D.drive book;
          parts = all_parts;
          holds = false;
        }) }
        ensures back { IfErr result (λ b. b ≡ book) }
    {
        let shared = SharedBook::of(alloc, book)?;
        match BookLock::new(alloc, shared) {
            Ok((lock, pass)) => {
                let store = Store {
                    lock,
                    keeps_spare: false,
                };
                Ok((store, pass))
            }
            Err(shared) => Err(shared.into_book()),
        }
    }

    /// As `new`, with the drive of a second file, over which the store may continue. If memory runs out, the call returns
    /// the book and the drive.
    pub fn with_spare<R: Wait>(
        rt: &R,
        alloc: Global,
        book: Book<I, D>,
        spare: D,
    ) -> Result<(Store<I, D, O>, Pass<SharedBook<I, D, O>>), (Book<I, D>, D)>
        requires entries { book.entries ≡ [] }
        requires world { IsWorld book.opening.world }
        requires start { StartsAs D.drive O.unlogged O.is book.log }
        requires moves { moves_in book.log ≡ true }
        ensures store { IfOk result (λ r. r.1 ≡ record {
          lock = r.0;
          seen = [];
          own = [];
          origin = origin_of D.drive book;
          parts = all_parts;
          holds = false;
        }) }
        ensures back { IfErr result (λ r. (r.0 ≡ book) × (r.1 ≡ spare)) }
    {
        match Store::new(alloc, book) {
            Ok((mut store, mut pass)) => {
                store.keep_spare(rt, &mut pass, spare);
                store.keeps_spare = true;
                Ok((store, pass))
            }
            Err(book) => Err((book, spare)),
        }
    }

    // Takes the book.
    fn take<R: Wait>(&self, rt: &R, pass: &mut Pass<SharedBook<I, D, O>>) -> SharedBook<I, D, O>
        requires lock { pass.old.lock ≡ self.now }
        requires off { pass.old.holds ≡ false }
        ensures { WasTaken D.drive result pass.old pass.new }
    {
        self.lock.take(rt, pass)
    }

    // Gives a book back that was taken. Where the step that was answered so has added an entry, that is the next of the history.
    fn give<T>(
        &self,
        pass: &mut Pass<SharedBook<I, D, O>>,
        book: SharedBook<I, D, O>,
        answer: &Result<T, BookFault>,
    )
        requires lock { pass.old.lock ≡ self.now }
        requires on { pass.old.holds ≡ true }
        requires origin { origin_of D.drive book ≡ pass.old.origin }
        requires entries { MayGive pass.old (has_entry answer.now) book.entries }
        ensures { pass.new ≡ has_given pass.old (has_entry answer.now) book.entries }
    {
        let grown = has_entry(answer);
        self.put_back(pass, book, grown);
    }

    // The same, with an entry more or as it was.
    fn put_back(&self, pass: &mut Pass<SharedBook<I, D, O>>, book: SharedBook<I, D, O>, grown: bool)
        requires lock { pass.old.lock ≡ self.now }
        requires on { pass.old.holds ≡ true }
        requires origin { origin_of D.drive book ≡ pass.old.origin }
        requires entries { MayGive pass.old grown book.entries }
        ensures { pass.new ≡ has_given pass.old grown book.entries }
    {
        if grown {
            self.lock.note(pass, &book);
            self.lock.put_back(pass, book);
        } else {
            self.lock.put_back(pass, book);
        }
    }
}
