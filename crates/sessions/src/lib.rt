//! Calls of many sessions on one book, from their own threads: one history, and splits of leaves meanwhile.
//!
//! Contracts see a `Store` as its lock, and a caller by its pass: what it has seen of the one history, and which of those
//! entries are its own.
//!
//! | Call | What it does |
//! |---|---|
//! | `call` | adds one entry, and returns the plain list's answer at its place |
//! | `apply` | executes many changes and finds as one step |
//! | `split_once` | begins a split of a leaf and ends it |
//! | `run_lanes` | plays the rows of several sessions, each row by one call |
//! | `settle` | makes the splits that are due at the end |
//! | `room`, `closed` | return the room that is left, and the record whose append failed |
//! | `world`, `world_at`, `view` | return a copy of the objects, alone or with its place, or a share of the index |
//! | `content`, `anew` | copy the objects with the names of the leaves, or with an index with fresh leaves |
//! | `hold`, `release` | take the lock and the book, and give both back: for a call that replaces the log by a fresh one |
//! | `close` | returns the book, whose history is what the last pass has seen |
//! | `with_spare`, `close_with_spare` | begin and end a store that keeps the drive of a second file beside the book |
//! | `put_spare`, `take_spare` | keep that drive, and return it, while a caller holds the book |
//! | `keeps_spare` | whether a store began so |
//! | `turn`, `set_turn` | say when the store goes over to that drive by itself |
//!
//! Contracts see the book without the second drive. They say that the log may be replaced if there is one.
//!
//! Each refusal has its cause over the history that the pass saw under the lock. The log of a returned book continues
//! from the opening that the store began with (`Start`).
//!
//! Not here: what a step does to the book (`commit_book`), how the lock works (`book_lock`), where rows come from
//! (`csv_rows`).
#![tactic(auto)]

mod faults;
mod points;
mod queries;
mod sending;
mod shared;
mod start;
mod store;

pub use faults::{CallFault, Settled, Split};
pub use shared::{SharedBook, Turn, WorldAt};
pub use start::Start;
pub use store::{KeptRow, Lane, Store};
