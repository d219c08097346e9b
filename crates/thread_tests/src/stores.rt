//! Stores over new books, and the index of a store that is closed.
ghost use Rattle.std.specs.Prelude.{◌≡◌};
ghost use Rattle.store_client.specs.Caller.{IsFree};

use book_lock::Pass;
use commit_book::Book;
use disk_trait::LogDisk;
use index_layer::Index;
use sessions::{SharedBook, Store};
use std::alloc::Global;
use std::marker::Brand;
use std::process::Abort;

/// A store over a new book with buckets of four, and the pass that has all its parts.
pub fn new_store<I: Index, D: LogDisk>(
    rt: &impl Abort,
    alloc: Global,
) -> (Store<I, D, Brand>, Pass<SharedBook<I, D, Brand>>)
    ensures free { IsFree result.0 result.1 }
    ensures parts { result.1.parts ≡ 65536 }
{
    let Ok(book) = Book::<I, D>::fresh(alloc, 4) else {
        rt.panic("no book is made")
    };
    let Ok(made) = Store::<I, D, Brand>::new(alloc, book) else {
        rt.panic("no store is made")
    };
    made
}

/// The index of a book.
pub fn index_of<I: Index, D: LogDisk>(book: Book<I, D>) -> I {
    book.into_parts().index
}
