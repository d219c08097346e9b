//! How much room a book has left.
ghost use Rattle.std.specs.Prelude.{◌≡◌};
ghost use Rattle.commit_book.specs.IsBook.{IsBook};
ghost use Rattle.commit_book.specs.RoomLeft.{room_of};

use crate::book::Book;
use disk_trait::LogDisk;
use index_layer::Index;
use split_log::MOST_CELLS;

/// How much room a book has left.
#[derive(Clone, Copy, Debug, PartialEq, Eq)]
pub struct Room {
    /// How many more entries the history takes.
    pub entries: u64,
    /// How many more records the log takes, or `None` without a log.
    pub records: Option<u64>,
}

impl<I: Index, D: LogDisk> Book<I, D> {
    /// How many more entries and records fit. Splits stop earlier: see `is_near_end`.
    pub fn room(&self) -> Room
        ensures room { result ≡ room_of self.now }
        ensures book { IsBook D.drive I.WIDTH self.now }
    {
        self.keep();
        Room {
            entries: self.history.most() - self.history.len() as u64,
            records: self.room_in_log(),
        }
    }

    fn room_in_log(&self) -> Option<u64>
        ensures { result ≡ (room_of self.now).records }
    {
        if !self.journal.has_log() {
            return None;
        }
        Some(MOST_CELLS - self.journal.cells())
    }
}
