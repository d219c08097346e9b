//! Two numbers that summarize all objects.
ghost use Rattle.std.specs.Prelude.{◌≡◌, ◌+◌, length};
ghost use Rattle.table_share.specs.Standing.{OfPlaces};
ghost use Rattle.table_share.specs.Sums.{sums_of, with_row};

use crate::folds::for_rows;
use bucket_versions::Row;
use index_layer::Index;
use std::sync::ledger::Ledger;
use step_count::Steps;

/// The number of objects, and the sum of the keys of their points modulo 2^64.
#[derive(Clone, Copy, Debug, PartialEq, Eq)]
pub struct Sums {
    pub points: u64,
    pub sum: u64,
}

/// Returns the numbers for all objects of an index. It opens each bucket once, each is one step, and it takes no
/// memory.
pub fn sum_up<I: Index, L: Ledger>(index: &I, steps: &mut Steps<L>) -> Sums
    ensures sums { OfPlaces (I.leaves index.now) (λ places. result ≡ sums_of places) }
    ensures opened { steps.new ≡ steps.old + length (I.leaves index.now) }
{
    let none = Sums { points: 0, sum: 0 };
    for_rows(
        index,
        none,
        |sums: Sums, row: &Row| with_row(sums, row),
        steps,
    )
}

// Returns the numbers with one more row.
fn with_row(sums: Sums, row: &Row) -> Sums
    ensures { result ≡ with_row sums row.now }
{
    Sums {
        points: sums.points.saturating_add(1),
        sum: sums.sum.wrapping_add(row.key),
    }
}
