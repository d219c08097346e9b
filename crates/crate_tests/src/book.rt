//! The book over the trie, without a log and over one in memory.
//!
//! A test is a list of steps, with the book's answer to each and its state after it. Functions over any index and any
//! drive take the steps, by `calls`, whose contracts say nothing about a book.

// A position by its coordinates and its moment. The moment is 0 if none is given.
macro_rules! at {
    ($x:expr, $y:expr) => {
        at!($x, $y, 0)
    };
    ($x:expr, $y:expr, $moment:expr) => {
        plain_list::Stamped {
            at: zorder::Point { x: $x, y: $y },
            moment: $moment,
        }
    };
}

mod batches;
mod books;
mod calls;
mod deltas;
mod logged;
mod lost_moves;
mod snapshots;
mod splits;
mod steps;
mod synced;
mod unlisted;
