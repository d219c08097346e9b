//! How two names lie to each other.
ghost use Rattle.std.specs.Prelude.{◌≡◌};
ghost use Rattle.index_layer.specs.Part.{goes_on};

use zorder::{Name, begins};

/// Returns whether the second name is longer and begins with the first.
pub fn goes_on(name: &Name, long: &Name) -> bool
    ensures { result ≡ goes_on name.now long.now }
{
    name.len() < long.len() && begins(name, long.bits())
}
