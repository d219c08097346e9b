//! The entries of a history, for contracts alone.
ghost use Rattle.std.specs.Prelude.{◌≡◌, List, [], ◌∷◌, ◌++◌};
ghost use Rattle.std.specs.Borrow.{ftrue};
ghost use Rattle.plain_list.specs.declared.entries.Entry.{Entry};

use plain_list::Entry;
use std::marker::Model;

/// The entries of a history. It takes no bytes, and its functions do nothing at run time.
#[derive(Drop)]
pub struct Past {
    pub ghost entries: { List Entry },
}

impl Model for Past {
    ghost also_owns = { λ _. ftrue };
}

impl Past {
    /// No entry.
    pub fn new() -> Past
        ensures { result.entries ≡ [] }
    {
        Past {}
    }

    /// The same entries.
    pub fn same(_past: &Past) -> Past
        ensures { result.entries ≡ _past.now.entries }
    {
        Past {}
    }

    /// The same entries, with one more at the end.
    pub fn with(_before: &Past, _entry: &Entry) -> Past
        ensures { result.entries ≡ _before.now.entries ++ _entry.now ∷ [] }
    {
        Past {}
    }
}

unsafe impl Send for Past {}

unsafe impl Sync for Past {}
