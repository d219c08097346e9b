//! A book over the log on a drive.
ghost use Rattle.std.specs.Prelude.{◌≡◌, []};

use commit_book::Book;
use disk_trait::LogDisk;
use index_layer::Index;
use recovery::open;
use split_log::MOST_CELLS;
use std::alloc::Global;
use std::process::Abort;

/// A book over the log on a drive, with buckets of four.
pub fn book_on<I: Index, D: LogDisk>(rt: &impl Abort, alloc: Global, disk: D) -> Book<I, D>
    ensures { result.entries ≡ [] }
{
    let Ok(opened) = open(alloc, disk, I::WIDTH, MOST_CELLS) else {
        rt.panic("the log isn't opened")
    };
    let Ok(book) = Book::opened(alloc, opened, 4) else {
        rt.panic("no book is made")
    };
    book
}
