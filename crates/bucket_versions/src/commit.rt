//! The step for which a change of an index waits.
ghost use Rattle.std.specs.Prelude.{◌≡◌, ⊤, IsTrue, IsFalse};

use std::alloc::AllocError;
use zorder::Memory;

/// A step that may fail, such as the append of a record. A function with a step takes it once all memory is there, and
/// before it changes anything.
pub trait Commit {
    /// What the step requires.
    ghost can: { Self → Type 0 };

    /// How a step that succeeds changes the value.
    ghost done: { Self → Self → Type 0 };

    /// How a step that fails changes the value.
    ghost lost: { Self → Self → Type 0 };

    /// Takes the step, and returns whether it succeeded.
    fn commit(&mut self) -> bool
        requires { can self.old }
        ensures done { IsTrue result → done self.old self.new }
        ensures lost { IsFalse result → lost self.old self.new };
}

/// A step that always succeeds, for a change that waits for nothing.
#[derive(Clone, Copy, Debug)]
pub struct AtOnce;

impl Commit for AtOnce {
    ghost can = { λ s. ⊤ };

    ghost done = { λ old new. new ≡ old };

    ghost lost = { λ old new. ⊥ };

    fn commit(&mut self) -> bool {
        true
    }
}

/// Why a change was not made. Nothing was changed.
#[derive(Clone, Copy, Debug, PartialEq, Eq)]
pub enum Undone {
    /// The step failed.
    Lost,
    /// Memory ran out, and the step was not taken.
    Memory,
}

impl From<AllocError> for Undone {
    ghost use Rattle.bucket_versions.specs.declared.commit.Undone.TheVariants.{Memory};

    ghost from_gives = { λ _ undone. undone ≡ Memory };

    fn from(_: AllocError) -> Undone {
        Undone::Memory
    }
}

impl From<Memory> for Undone {
    ghost use Rattle.bucket_versions.specs.declared.commit.Undone.TheVariants.{Memory};

    ghost from_gives = { λ _ undone. undone ≡ Memory };

    fn from(_: Memory) -> Undone {
        Undone::Memory
    }
}
