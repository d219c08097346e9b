//! Exclusive access to what is behind a shared pointer.
ghost use Rattle.std.specs.Prelude.{◌≡◌, ◌⊎◌, IfOk};
ghost use Rattle.std.specs.Arc.{arc_value, arc_follows_make_mut};
ghost use Rattle.std.specs.Borrow.{sem};

use std::alloc::{AllocError, Allocator};
use std::sync::Arc;

/// Returns what is behind a pointer, to write to. If the pointer has other owners, it first clones the value.
/// `Arc::make_mut` does the same. It is called only for a shared value, so that a loop down a tree of pointers has no
/// call in it.
#[inline(always)]
pub fn own<T: Clone + Drop, A: Allocator + Clone>(
    shared: &mut Arc<T, A>,
) -> Result<&mut T, AllocError>
    ensures* writes_back { sem 𝓛 (arc_follows_make_mut T.row A.row A.Allocator T.is_clone shared.entry result) }
    ensures value { IfOk result (λ x. (x.now ≡ arc_value shared.old) ⊎ T.is_clone (arc_value shared.old) x.now) }
{
    if Arc::strong_count(shared) != 1 {
        part(shared)?;
    }
    match Arc::get_mut(shared) {
        Some(value) => Ok(value),
        None => Err(AllocError),
    }
}

// Separates a pointer from its other owners.
#[inline(never)]
fn part<T: Clone + Drop, A: Allocator + Clone>(shared: &mut Arc<T, A>) -> Result<(), AllocError>
    ensures { (arc_value shared.new ≡ arc_value shared.old) ⊎ T.is_clone (arc_value shared.old) (arc_value shared.new) }
{
    Arc::make_mut(shared)?;
    Ok(())
}
