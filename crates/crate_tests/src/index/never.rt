//! A step that fails.
ghost use Rattle.std.specs.Prelude.{◌≡◌, ⊤};

use bucket_versions::Commit;

/// Fails each time.
#[derive(Clone, Copy)]
pub(crate) struct Never;

impl Commit for Never {
    ghost can = { λ s. ⊤ };

    ghost done = { λ old new. ⊥ };

    ghost lost = { λ old new. new ≡ old };

    fn commit(&mut self) -> bool {
        false
    }
}
