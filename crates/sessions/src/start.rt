//! What is known of a log's drive at the opening.
use std::marker::Brand;

/// A fact of the drive over which a book's log was first opened and of how the log is written, or of a book without a log.
/// It holds of the book that enters a store and of the book that the store returns. So the returned book is known to
/// continue from the same opening. `Brand` is no fact, or one that a proof picks at a call.
pub trait Start {
    ghost use Rattle.std.specs.Prelude.{Bool};
    ghost use Rattle.disk_trait.specs.Drive.{Drive};

    /// The fact of a book without a log.
    ghost unlogged: { Type 0 };

    /// The fact of the drive, of whether records wait for a sync, and of whether a fresh log may replace the log.
    ghost is: { Drive → Bool → Bool → Type 0 };
}

impl Start for Brand {
    ghost use Rattle.std.specs.Prelude.{⊤};

    ghost unlogged = { ⊤ };

    ghost is = { λ drive waits moves. ⊤ };
}
