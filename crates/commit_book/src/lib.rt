//! The book: the sequential core of the store, a state machine over any index.
//!
//! Contracts see a book as the leaves of its index, the state at which it began, its history since, its bucket size and
//! its log. Its invariant (`Book::events`, clause `book`) says:
//! - The history is legal, and the index stands for its world, with its leaves.
//! - The base of a leaf whose split is open has the leaf's rows at the begin.
//! - The log, if there is one, keeps the history.
//!
//! `update`, `note` and `snapshot` append one call each, and `update` returns the answer of the plain list. `begin`,
//! `install` and `abandon` append the steps of a split and don't change the world. A refused call changes nothing,
//! unless the drive failed. Then the history ends with the lost step, and the book is closed. In each step (`Step`) the
//! table changes after the record is in the log and the entry in the history.
//!
//! `update_all` makes a batch of changes and finds in one step. Its entries follow one another, and the log takes the
//! records of its changes together: a crash leaves all of them or none. The batch is worked out beside the table first
//! (`BatchPlan`), so a batch that is refused or whose append fails has changed nothing there.
//!
//! A log is written at once: each record is in the file before its change is made. After `at_sync` records wait in memory,
//! in the order of the history, and a change is made before its record is in the file. `sync` adds all that wait by one
//! append. If 65,536 wait already, the next change does. A crash leaves a prefix of the history's records: at least those
//! that were written.
//!
//! A book keeps the list of its entries, and takes at most 4,194,304 of them. After `without_list` it keeps none: then it
//! takes no memory for its entries, and 2^60 of them fit. Contracts see the same history of either kind. `room` returns how
//! much more the book takes.
//!
//! `content` copies the objects and the names of the leaves, from which the caller writes another log. `rotate`
//! continues on that log, with an empty history. `anew` and `rotate_anew` do the same with fresh leaves, those that the
//! bucket size requires.
//!
//! After `may_move` a fresh log with the book's objects and leaves may replace the log, by `move_log`. The history and its
//! places then go on. The fresh log keeps only what comes after.
//!
//! Not here: the objects by id and by key (`point_table`), how a log is opened (`recovery`), how a bucket is cut
//! (`split_prepare`). Which thread may call, and when, is in `book_lock`.
#![tactic(auto)]

mod batch_steps;
mod book;
mod faults;
mod history;
mod open_splits;
mod opening;
mod sending;
mod steps;

pub use book::{
    Anew, BatchDone, Book, BookParts, Content, Done, MOST_CELLS_TO_BEGIN, MOST_EVENTS,
    MOST_EVENTS_TO_BEGIN, MOST_EVENTS_TO_BEGIN_UNLISTED, MOST_EVENTS_UNLISTED, NotMoved, Replaced,
    Room, Snapshot,
};
pub use faults::{BookFault, MoveFault};
