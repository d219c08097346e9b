//! The facts that stores over files have.
use sessions::Start;
use std::marker::PhantomData;

/// The fact that a store over a file has: its book has a log, to which each record is written at once, and which no fresh
/// log may replace. No value of this type is ever created.
pub struct OverFile;

impl Start for OverFile {
    ghost use Rattle.std.specs.Prelude.{◌≡◌, false};

    ghost unlogged = { ⊥ };

    ghost is = { λ drive waits moves. (waits ≡ false) × (moves ≡ false) };
}

/// The fact of a store over a file whose records may wait in memory for a sync: its book has a log, which no fresh log may
/// replace. No value of this type is ever created.
pub struct AtSync;

impl Start for AtSync {
    ghost use Rattle.std.specs.Prelude.{◌≡◌, false};

    ghost unlogged = { ⊥ };

    ghost is = { λ drive waits moves. moves ≡ false };
}

/// The fact of a store that may continue over a second file while its history goes on: its book has a log, which fresh
/// logs may replace. `O` is the fact that the store had before. No value of this type is ever created.
pub struct Rotating<O: Start> {
    _before: PhantomData<O>,
}

impl<O: Start> Start for Rotating<O> {
    ghost use Rattle.std.specs.Prelude.{◌≡◌, false, true};

    ghost unlogged = { ⊥ };

    ghost is = { λ drive waits moves. O.is drive waits false × (moves ≡ true) };
}
