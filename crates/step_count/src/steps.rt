//! The count, kept in a ledger of the standard library.
ghost use Rattle.std.specs.Prelude.{◌≡◌, ◌+◌};

use std::marker::Model;
use std::sync::ledger::{Blank, Book, Ledger, Share};

/// A number of steps, of zero size. It is the total of the ledger `L`, whose one share has all parts.
#[derive(Drop)]
pub struct Steps<L: Ledger> {
    book: Book<L>,
    share: Share<L>,
}

impl<L: Ledger> Model for Steps<L> {
    ghost use Rattle.std.specs.Prelude.{◌≡◌, ℕ};

    ghost Value = { ℕ };

    ghost view = { λ s. s.book.total };

    ghost invariant = { λ s. s.share.parts ≡ 1 };
}

impl<L: Ledger> Steps<L> {
    /// Starts a count at 0. `blank` is the blank of a ledger with one part. A caller without a ledger calls a function
    /// over `L: Ledger` with `Blank::new(1)`, and with `Brand` for `L`.
    pub fn new(blank: Blank) -> Steps<L>
        requires name { blank.name ≡ L.name }
        requires parts { blank.parts ≡ L.parts }
        requires one_part { blank.parts ≡ 1 }
        ensures { result ≡ 0 }
    {
        let (book, share) = blank.open::<L>();
        Steps { book, share }
    }

    pub fn tick(&mut self)
        ensures { self.new ≡ self.old + 1 }
    {
        self.book.add(&mut self.share, 1);
    }
}
