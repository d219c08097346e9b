//! Plays rows on a store, each session in a lane of its own.
ghost use Rattle.std.specs.Prelude.{◌≡◌, ◌⊎◌, ◌+◌, ◌≤◌, [], false, IfSome};
ghost use Rattle.csv_rows.specs.InRows.{AreInRows};
ghost use Rattle.commit_book.specs.IsBook.{IsBook};
ghost use Rattle.sessions.specs.Shared.{StartsAs};
ghost use Rattle.play_run.specs.inside.Dealt.{fresh_pass};
ghost use Rattle.play_run.specs.inside.Joined.{HasRun, HasNotRun, HasAllParts};
ghost use Rattle.play_run.specs.inside.Books.{IsNewBook};
ghost use Rattle.play_run.specs.inside.Answered.{IsPlayedBook, IsAnsweredBook};

use crate::jobs::Host;
use crate::lanes::{LaneEnd, SESSIONS, are_calm, deal, gather};
use book_lock::Pass;
use commit_book::Book;
use csv_rows::InRow;
use disk_trait::LogDisk;
use index_layer::Index;
use io_edge::Gate;
use sessions::{SharedBook, Start, Store};
use std::sync::Wait;
use std::thread::Threads;

/// The book after its rows were played, with their history. `ends` is what the lanes left, if each row was answered and
/// the splits at the end were settled.
#[derive(Drop)]
pub(crate) struct Played<I: Index, D: LogDisk> {
    pub(crate) book: Book<I, D>,
    pub(crate) ends: Option<Vec<LaneEnd>>,
}

/// Plays rows on a store of a book without entries, and closes the store. If `ends` is `None` afterwards, an append
/// failed or memory ran out.
pub(crate) fn play_sessions<
    R: Threads + Wait + Sync,
    I: Index + Send,
    D: LogDisk + Send,
    O: Start + Send,
    G: Gate + Sync,
>(host: &Host<'_, R, G>, rows: &[InRow], book: Book<I, D>) -> Played<I, D>
    requires rows { AreInRows rows.now }
    requires new { IsNewBook book }
    requires starts { StartsAs D.drive O.unlogged O.is book.log }
    ensures played { IsPlayedBook I.WIDTH rows.now book result.book }
    ensures answered { IfSome result.ends (λ ends. IsAnsweredBook I.WIDTH rows.now book result.book ends.items) }
    ensures book { IsBook D.drive I.WIDTH result.book }
    ensures starts { StartsAs D.drive O.unlogged O.is result.book.log }
{
    // Calling `events` makes known what holds of each book.
    let _events = book.events();
    match Store::<I, D, O>::new(host.alloc, book) {
        Ok((store, mut pass)) => {
            let mut ends = Vec::new(host.alloc);
            let done = play_lanes(host, rows, &store, &mut pass, &mut ends);
            let book = store.close(pass);
            let _events = book.events();
            if !done {
                return Played { book, ends: None };
            }
            let ends = Some(ends);
            Played { book, ends }
        }
        Err(book) => {
            let _events = book.events();
            Played { book, ends: None }
        }
    }
}

// Plays rows in lanes and joins the lanes' passes. If no lane had a fault, the splits at the end are settled. Returns
// whether each row was answered and the splits are settled.
fn play_lanes<
    R: Threads + Wait + Sync,
    I: Index + Send,
    D: LogDisk + Send,
    O: Start + Send,
    G: Gate + Sync,
>(
    host: &Host<'_, R, G>,
    rows: &[InRow],
    store: &Store<I, D, O>,
    pass: &mut Pass<SharedBook<I, D, O>>,
    ends: &mut Vec<LaneEnd>,
) -> bool
    requires rows { AreInRows rows.now }
    requires pass { pass.old ≡ fresh_pass store.now pass.old.origin 65536 }
    requires none { ends.old.items ≡ [] }
    ensures ran { HasRun I D O I.Place I.WIDTH pass.old.origin rows.now ends.new.items pass.new result ⊎ HasNotRun pass.new result }
    ensures parts { HasAllParts pass.old pass.new }
{
    let mut lanes = Vec::new(host.alloc);
    let Ok(()) = ends.reserve(SESSIONS as usize) else {
        lanes.destroy_empty();
        return false;
    };
    let Ok(()) = deal(host.alloc, store, pass, rows, &mut lanes) else {
        gather(store, pass, lanes, ends);
        return false;
    };
    store.run_lanes(host.rt, host.alloc, lanes.as_mut_slice(), host.gate);
    let calm = are_calm(lanes.as_slice());
    gather(store, pass, lanes, ends);
    if !calm {
        return false;
    }
    store.settle(host.rt, host.alloc, pass, host.gate).is_ok()
}
