//! What the lock requires of its value.
ghost use Rattle.std.specs.Prelude.{◌≡◌, List, length};
ghost use Rattle.plain_list.specs.declared.entries.Entry.{Entry};
ghost use Rattle.book_lock.specs.Origin.{Origin};

/// A value that keeps a history.
pub trait Held {
    /// Its entries since it began.
    ghost entries: { Self → List Entry };

    /// What it began from. No step changes it.
    ghost origin: { Self → Origin };

    /// The number of its entries.
    fn events(&self) -> u64
        ensures { result ≡ length (entries self.now) };

    /// Whether a step may take long, for example because it syncs a file. The lock calls this once, when it is created.
    /// A caller that waits for a slow value sleeps until it is woken. For a quick value a caller of a batch naps.
    fn is_slow(&self) -> bool {
        true
    }
}
