//! Binary searches in a list of rows in order.
ghost use Rattle.std.specs.Prelude.{◌≡◌, ◌≤◌, ◌<◌, ◌+◌, ◌*◌, ◌^◌, nat_le, nat_lt, true, false, length, MatchResult};
ghost use Rattle.std.specs.List.{filter};
ghost use Rattle.bucket_versions.specs.Rows.{IsRows, has_row, rows_between, row_place, is_below};

use crate::row::Row;

/// Returns the index of a row, or `Err` with the index at which it would be inserted.
pub(crate) fn place_of(rows: &[Row], row: &Row) -> Result<usize, usize>
    requires { IsRows rows.now }
    ensures there { MatchResult result (λ i. has_row row.now rows.now ≡ true) (λ i. has_row row.now rows.now ≡ false) }
    ensures place { MatchResult result (λ i. i ≡ row_place row.now rows.now) (λ i. i ≡ row_place row.now rows.now) }
    ensures within { MatchResult result (λ i. i < length rows.now) (λ i. i ≤ length rows.now) }
{
    let place = rows_below(rows, row);
    if place < rows.len() && rows[place] == *row {
        Ok(place)
    } else {
        Err(place)
    }
}

fn rows_below(rows: &[Row], row: &Row) -> usize
    requires { IsRows rows.now }
    ensures place { result ≡ row_place row.now rows.now }
    ensures within { result ≤ length rows.now }
{
    rows.partition_point(|r| is_below(r, row))
}

// Returns whether a row comes before another. It compares 128-bit numbers without a branch, because a processor would
// guess the branch wrong half of the time.
#[inline(always)]
fn is_below(row: &Row, other: &Row) -> bool
    ensures { result ≡ is_below row.now other.now }
{
    as_number(row) < as_number(other)
}

#[inline(always)]
fn as_number(row: &Row) -> u128
    ensures sum { result ≡ row.now.key * 2 ^ 64 + row.now.id }
    ensures fits { row.now.id < 2 ^ 64 }
{
    u128::from(row.key) * (1 << 64) + u128::from(row.id)
}

/// Returns the rows with keys from `lo` to `hi`.
pub fn between(rows: &[Row], lo: u64, hi: u64) -> &[Row]
    requires { IsRows rows.now }
    ensures rows { result.now ≡ rows_between lo hi rows.now }
    ensures in_order { IsRows result.now }
{
    from_key(up_to_key(rows, hi), lo)
}

fn up_to_key(rows: &[Row], hi: u64) -> &[Row]
    requires { IsRows rows.now }
    ensures rows { result.now ≡ filter (λ r. nat_le r.key hi) rows.now }
    ensures in_order { IsRows result.now }
{
    let end = rows.partition_point(|r| r.key <= hi);
    &rows[..end]
}

fn from_key(rows: &[Row], lo: u64) -> &[Row]
    requires { IsRows rows.now }
    ensures { result.now ≡ filter (λ r. nat_le lo r.key) rows.now }
{
    let start = rows.partition_point(|r| r.key < lo);
    &rows[start..]
}

/// Returns the rows with keys above `key`.
#[inline(never)]
pub(crate) fn above_key(rows: &[Row], key: u64) -> &[Row]
    requires { IsRows rows.now }
    ensures rows { result.now ≡ filter (λ r. nat_lt key r.key) rows.now }
    ensures in_order { IsRows result.now }
{
    let start = rows.partition_point(|r| r.key <= key);
    &rows[start..]
}
