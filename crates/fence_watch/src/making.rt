//! Fences from code.
ghost use Rattle.std.specs.Prelude.{◌≡◌, IfSome, MatchResult, None};
ghost use Rattle.fence_watch.specs.Fences.{AreFences, IsFence};
ghost use Rattle.fence_watch.specs.FenceFaults.{fault_behind, fault_of};

use crate::fences::{Fence, Fences, MOST_FENCES, has_fence};
use plain_list::is_box;
use std::alloc::Global;
use thiserror::Error;
use zorder::coordinates_fit;

/// Why fences were refused. A number is that of the first faulty fence, from 0 on.
#[derive(Clone, Copy, Debug, PartialEq, Eq, Error)]
pub enum BadFences {
    #[error("there are more than 256 fences")]
    TooMany,
    /// The lower corner isn't at most the upper one, on both axes.
    #[error("fence {number} is no box")]
    NoBox { number: usize },
    /// The fence is a box, and has the id of an earlier one.
    #[error("fence {number} has the id of an earlier one")]
    Twice { number: usize },
    #[error("out of memory")]
    Memory,
}

impl Fences {
    /// These fences, in their order. The call checks them before it allocates memory.
    pub fn of(alloc: Global, fences: &[Fence]) -> Result<Fences, BadFences>
        ensures fault { IfSome (fault_of fences.now) (λ e. result ≡ Err e) }
        ensures fences { fault_of fences.now ≡ None → MatchResult result (λ f. f ≡ fences.now) (λ e. e ≡ BadFences.Memory) }
    {
        if let Some(fault) = fault_of(fences) {
            return Err(fault);
        }
        let Ok(items) = Vec::from_slice(alloc, fences) else {
            return Err(BadFences::Memory);
        };
        Ok(Fences::from_vec(items))
    }
}

fn fault_of(fences: &[Fence]) -> Option<BadFences>
    ensures fault { result ≡ fault_of fences.now }
    ensures rules { result ≡ None → AreFences fences.now }
{
    if fences.len() > MOST_FENCES {
        return Some(BadFences::TooMany);
    }
    for number in 0..fences.len() {
        if let Some(fault) = fault_behind(&fences[..number], fences[number]) {
            return Some(fault);
        }
    }
    None
}

// What is wrong with the fence that comes after these, if anything is.
fn fault_behind(earlier: &[Fence], fence: Fence) -> Option<BadFences>
    ensures fault { result ≡ fault_behind earlier.now fence }
    ensures fence { result ≡ None → IsFence fence }
{
    coordinates_fit(fence.region.lo);
    coordinates_fit(fence.region.hi);
    let number = earlier.len();
    if !is_box(&fence.region) {
        return Some(BadFences::NoBox { number });
    }
    if has_fence(earlier, fence.id) {
        return Some(BadFences::Twice { number });
    }
    None
}
