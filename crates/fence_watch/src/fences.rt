//! Fences, and the events of crossing them.
ghost use Rattle.std.specs.Prelude.{◌≡◌, IfOk};
ghost use Rattle.fence_watch.specs.Fences.{AreFences, has_fence};

use std::alloc::Global;
use std::marker::Model;
use zorder::{Memory, Region};

/// A box with a number.
#[derive(Clone, Copy, Debug, PartialEq, Eq)]
pub struct Fence {
    pub id: u64,
    pub region: Region,
}

/// The most fences of one watch.
pub const MOST_FENCES: usize = 256;

/// Whether a fence has this id.
pub fn has_fence(fences: &[Fence], id: u64) -> bool
    ensures { result ≡ has_fence id fences.now }
{
    fences.iter().any(|fence| fence.id == id)
}

/// At most 256 fences in the given order. No two have the same id.
#[derive(Drop)]
pub struct Fences {
    items: Vec<Fence>,
}

impl Model for Fences {
    ghost use Rattle.std.specs.Prelude.{List};
    ghost use Rattle.fence_watch.specs.declared.fences.Fence.{Fence};
    ghost use Rattle.fence_watch.specs.Fences.{AreFences};

    ghost Value = { List Fence };

    ghost view = { λ f. f.items.items };

    ghost invariant = { λ f. AreFences f.items.items };
}

impl Fences {
    /// The fences of a list that keeps the rules.
    pub fn from_vec(items: Vec<Fence>) -> Fences
        requires { AreFences items.items }
        ensures { result ≡ items.items }
    {
        Fences { items }
    }

    pub fn as_slice(&self) -> &[Fence]
        ensures fences { result.now ≡ self.now }
        ensures rules { AreFences self.now }
    {
        self.items.as_slice()
    }

    /// A copy of the fences. `Watch::new` consumes the fences that it gets.
    pub fn copy(&self, alloc: Global) -> Result<Fences, Memory>
        ensures { IfOk result (λ f. f ≡ self.now) }
    {
        Ok(Fences {
            items: Vec::from_slice(alloc, self.as_slice())?,
        })
    }
}

/// Whether an object went into a fence or out of it.
#[derive(Clone, Copy, Debug, PartialEq, Eq)]
pub enum Crossing {
    Enter,
    Leave,
}

/// With the cell of this number the object crossed the fence.
#[derive(Clone, Copy, Debug, PartialEq, Eq)]
pub struct Event {
    pub at: u64,
    pub crossing: Crossing,
    pub id: u64,
    pub fence: u64,
}
