//! The number of a leaf's rows that are in a box.
ghost use Rattle.std.specs.Prelude.{◌≡◌, ◌≤◌, ◌<◌, ◌+◌, ◌^◌, ◌&&◌, nat_le, bit_and, IfSome};
ghost use Rattle.std.specs.List.{filter};
ghost use Rattle.zorder.specs.Region.{IsBox};
ghost use Rattle.bucket_versions.specs.Rows.{IsRows};
ghost use Rattle.table_share.specs.KeysUnder.{AreKeysUnder};
ghost use Rattle.range_query.specs.Cut.{IsAreaOf, IsNumberIn};
ghost use Rattle.range_query.specs.Masks.{NumberMasked};
ghost use Rattle.range_query.specs.Rest.{IsRestOf, IsRestOn};

use bucket_versions::{Bucket, BucketRows};
use prefix_names::KeyBox;
use std::sync::ledger::Ledger;
use step_count::Steps;
use zorder::{Name, Point, Region, key};

// The bits of x and the bits of y in a key. Keys masked by one of them have the order of that coordinate.
const OF_X: u64 = 0xAAAA_AAAA_AAAA_AAAA;

const OF_Y: u64 = 0x5555_5555_5555_5555;

/// Returns how many rows of a leaf are in the box. `area` is the region of the leaf. If the box has all of the area
/// except a part along one edge, the function counts the rows of that part instead: these are few, and their keys are
/// near each other. It computes no point.
pub(crate) fn count_rows<L: Ledger>(
    bucket: &Bucket,
    name: &Name,
    area: &Region,
    region: &Region,
    steps: &mut Steps<L>,
) -> u64
    requires is_box { IsBox region.now }
    requires area { IsAreaOf name.now area.now }
    ensures number { AreKeysUnder name.now bucket.now.rows → IsNumberIn region.now bucket.now.rows result }
    ensures opened { steps.new ≡ steps.old + 1 }
{
    let rows = bucket.rows(steps);
    match rest_of(area, region) {
        Some(rest) => {
            let outside = count_part(rows, name, area, &rest);
            bucket.count().saturating_sub(outside)
        }
        None => count_part(rows, name, area, region),
    }
}

// Returns the part of the area outside the box, if this part is along one edge of the area.
fn rest_of(area: &Region, region: &Region) -> Option<Region>
    requires { IsBox area.now }
    ensures { IfSome result (IsRestOf area.now region.now) }
{
    if region.lo.y <= area.lo.y && area.hi.y <= region.hi.y {
        let (from, to) = rest_on(area.lo.x, area.hi.x, region.lo.x, region.hi.x)?;
        Some(Region {
            lo: Point { x: from, ..area.lo },
            hi: Point { x: to, ..area.hi },
        })
    } else if region.lo.x <= area.lo.x && area.hi.x <= region.hi.x {
        let (from, to) = rest_on(area.lo.y, area.hi.y, region.lo.y, region.hi.y)?;
        Some(Region {
            lo: Point { y: from, ..area.lo },
            hi: Point { y: to, ..area.hi },
        })
    } else {
        None
    }
}

// Returns the first and the last of the numbers from `lo` to `hi` that aren't from `from` to `to`, if these are at one
// end.
fn rest_on(lo: u32, hi: u32, from: u32, to: u32) -> Option<(u32, u32)>
    ensures { IfSome result (IsRestOn lo hi from to) }
{
    if lo < from && hi <= to {
        Some((lo, from - 1))
    } else if from <= lo && to < hi {
        Some((to + 1, hi))
    } else {
        None
    }
}

// Returns how many rows are in a part of the area. It doesn't test an axis on which the part has all of the area.
fn count_part(rows: BucketRows<'_>, name: &Name, area: &Region, part: &Region) -> u64
    requires is_box { IsBox part.now }
    requires area { IsAreaOf name.now area.now }
    requires rising { IsRows rows }
    ensures { AreKeysUnder name.now rows.entry → IsNumberIn part.now rows.entry result }
{
    let _ = name;
    let from = key(part.lo);
    let to = key(part.hi);
    let later = skip_to(rows, from);
    if part.lo.y <= area.lo.y && area.hi.y <= part.hi.y {
        count_masked(later, OF_X, from, to)
    } else if part.lo.x <= area.lo.x && area.hi.x <= part.hi.x {
        count_masked(later, OF_Y, from, to)
    } else {
        count_within(later, part)
    }
}

// Skips the rows whose keys are less than `from`.
fn skip_to(mut rows: BucketRows<'_>, from: u64) -> BucketRows<'_>
    ensures { result ≡ filter (λ r. nat_le from r.key) rows.entry }
{
    if 0 < from {
        rows.pass_key(from - 1);
    }
    rows
}

// Returns how many rows have a masked key from that of `from` to that of `to`. It stops at a key above `to`.
fn count_masked(rows: BucketRows<'_>, mask: u64, from: u64, to: u64) -> u64
    requires order { bit_and from mask ≤ bit_and to mask }
    requires rising { IsRows rows }
    ensures { NumberMasked mask from to rows.entry result }
{
    let first = from & mask;
    let span = (to & mask) - first;
    let mut count = 0u64;
    for row in rows {
        if to < row.key {
            return count;
        }
        if is_within(row.key & mask, first, span) {
            count = count.saturating_add(1);
        }
    }
    count
}

// Tests both ends by one comparison. A number below `first` wraps around to one above `span`.
fn is_within(number: u64, first: u64, span: u64) -> bool
    requires { first + span < 2 ^ 64 }
    ensures { result ≡ (nat_le first number && nat_le number (first + span)) }
{
    number.wrapping_sub(first) <= span
}

fn count_within(rows: BucketRows<'_>, region: &Region) -> u64
    ensures { IsNumberIn region.now rows.entry result }
{
    let corners = KeyBox::of(region);
    let mut count = 0u64;
    for row in rows {
        if corners.has(row.key) {
            count = count.saturating_add(1);
        }
    }
    count
}
