//! Where the search among edges begins.
ghost use Rattle.std.specs.Prelude.{◌≡◌, ◌≤◌, ◌<◌, true, length, slice_index, IfSome};
ghost use Rattle.std.specs.List.Sorted.{IsNonDecreasing};
ghost use Rattle.fence_watch.specs.Slabs.{IsAmong, IsSlabOf};

use std::alloc::{AllocError, Global};

/// For each stripe of numbers, the slab of its first number. Stripes begin at the first edge above 0. No contract
/// depends on a hint: if it is wrong, all edges are searched.
#[derive(Drop)]
pub(crate) struct Hints {
    least: u32,
    shift: u32,
    starts: Vec<u16>,
}

/// `count` slabs from `slab` on.
#[derive(Clone, Copy)]
struct Stretch {
    slab: usize,
    count: usize,
}

/// The number of bits that number the stripes.
const STRIPE_BITS: u32 = 12;

impl Hints {
    pub(crate) fn new(alloc: Global, edges: &[u32]) -> Result<Hints, AllocError>
        requires rise { IsNonDecreasing edges.now }
        requires some { 1 ≤ length edges.now }
        requires first { slice_index edges.now 0 ≤ 0 }
    {
        let least = edges
            .get(slab_in(edges, 0, all_of(edges)) + 1)
            .copied()
            .unwrap_or(0);
        let width = edges[edges.len() - 1].saturating_sub(least);
        let shift = (u32::BITS - STRIPE_BITS).saturating_sub(width.leading_zeros());
        let mut starts = Vec::new(alloc);
        for stripe in 0..(1 << STRIPE_BITS) + 2 {
            let first = first_of(least, shift, stripe);
            let slab = slab_in(edges, first, all_of(edges));
            starts.push(u16::try_from(slab).unwrap_or(u16::MAX))?;
        }
        Ok(Hints {
            least,
            shift,
            starts,
        })
    }

    /// The last of these edges that is at most a number.
    pub(crate) fn slab(&self, edges: &[u32], at: u32) -> usize
        requires rise { IsNonDecreasing edges.now }
        requires some { 1 ≤ length edges.now }
        requires first { slice_index edges.now 0 ≤ at }
        ensures { IsSlabOf edges.now at result }
    {
        slab_in(edges, at, self.stretch(edges, at))
    }

    // The slabs of the number's stripe, if the edges confirm it. Otherwise all slabs.
    fn stretch(&self, edges: &[u32], at: u32) -> Stretch
        requires some { 1 ≤ length edges.now }
        requires first { slice_index edges.now 0 ≤ at }
        ensures { IsAmong edges.now at result.slab result.count }
    {
        if let Some(stretch) = self.hint(at) {
            if is_among(edges, at, stretch) {
                return stretch;
            }
        }
        all_of(edges)
    }

    fn hint(&self, at: u32) -> Option<Stretch>
        ensures { IfSome result (λ stretch. 1 ≤ stretch.count) }
    {
        let stripe = at.saturating_sub(self.least).wrapping_shr(self.shift) as usize;
        let stripe = stripe.min(self.starts.len().saturating_sub(2));
        let slab = usize::from(*self.starts.get(stripe)?);
        let last = usize::from(*self.starts.get(stripe + 1)?);
        Some(Stretch {
            slab,
            count: last.saturating_sub(slab) + 1,
        })
    }
}

// The first number of a stripe. The numbers before the first stripe belong to it, too.
fn first_of(least: u32, shift: u32, stripe: u32) -> u32
    requires shift { shift < 32 }
    requires stripe { stripe < 8192 }
{
    if stripe == 0 {
        return 0;
    }
    let first = u64::from(least) + (u64::from(stripe) << shift);
    u32::try_from(first).unwrap_or(u32::MAX)
}

fn all_of(edges: &[u32]) -> Stretch
    ensures slab { result.slab ≡ 0 }
    ensures count { result.count ≡ length edges.now }
{
    Stretch {
        slab: 0,
        count: edges.len(),
    }
}

fn is_among(edges: &[u32], at: u32, stretch: Stretch) -> bool
    requires { 1 ≤ stretch.count }
    ensures { result ≡ true → IsAmong edges.now at stretch.slab stretch.count }
{
    let Stretch { slab, count } = stretch;
    if slab >= edges.len() || count > edges.len() - slab {
        return false;
    }
    edges[slab] <= at && (count == edges.len() - slab || at < edges[slab + count])
}

// The last edge that is at most a number. It is among these. Each turn halves the number of edges that are left.
fn slab_in(edges: &[u32], at: u32, stretch: Stretch) -> usize
    requires rise { IsNonDecreasing edges.now }
    requires among { IsAmong edges.now at stretch.slab stretch.count }
    ensures { IsSlabOf edges.now at result }
{
    let mut slab = stretch.slab;
    let mut left = stretch.count;
    while left > 1 {
        let half = left / 2;
        if edges[slab + half] <= at {
            slab += half;
        }
        left -= half;
    }
    slab
}
