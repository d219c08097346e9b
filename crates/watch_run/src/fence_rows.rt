//! Fences as rows of a text.
ghost use Rattle.std.specs.Prelude.{◌≡◌, ◌≢◌, ◌∷◌, [], Ok, Err, IfOk, IfErr, MatchOption, length};
ghost use Rattle.csv.specs.Records.{fields_of};
ghost use Rattle.csv_rows.specs.Tables.{is_header_of};
ghost use Rattle.watch_run.specs.FenceRows.{fence_of, fence_at, fence_table, fences_of_text};

use csv::ByteRecord;
use csv_rows::{
    COORDINATE, ID, ReadsRow, RowsFault, Wrong, at_least, field_in, is_text, number_at, point_of,
    read_table,
};
use fence_watch::{Fence, Fences, MOST_FENCES, has_fence};
use std::alloc::Global;
use zorder::Region;

/// The fences of a text: the header `fence,x,y,a,b`, and then at most 256 rows of five fields.
///
/// The text may begin with one byte order mark. Empty lines are no records, and numbers may have leading zeros.
pub fn read_fences(alloc: Global, bytes: &[u8]) -> Result<Fences, RowsFault>
    ensures rows { IfOk result (λ fences. fences_of_text bytes.now ≡ Ok fences) }
    ensures fault { IfErr result (λ e. e ≢ RowsFault.Memory → fences_of_text bytes.now ≡ Err e) }
{
    let fences = read_table(alloc, bytes, FenceRows)?;
    Ok(Fences::from_vec(fences))
}

// How a fence is read after the earlier ones.
#[derive(Drop)]
struct FenceRows;

impl ReadsRow for FenceRows {
    ghost use Rattle.std.specs.Prelude.{⊤};
    ghost use Rattle.watch_run.specs.FenceRows.{fence_table};

    type Row = Fence;

    ghost table = { fence_table };

    ghost knows = { λ _ _. ⊤ };

    fn most(&self) -> u32 {
        MOST_FENCES as u32
    }

    fn is_header(&self, fields: &ByteRecord) -> bool {
        is_header(fields)
    }

    fn row(&mut self, earlier: &[Fence], fields: &ByteRecord) -> Result<Fence, Wrong> {
        fence_of(earlier, fields)
    }
}

// The fields of a fence.
#[derive(Clone, Copy)]
struct Fields<'a> {
    id: &'a [u8],
    x: &'a [u8],
    y: &'a [u8],
    a: &'a [u8],
    b: &'a [u8],
}

fn fields_in(fields: &ByteRecord) -> Option<Fields<'_>>
    ensures { MatchOption result (length (fields_of fields.now) ≢ 5)
        (λ f. fields_of fields.now ≡ f.id.now ∷ f.x.now ∷ f.y.now ∷ f.a.now ∷ f.b.now ∷ []) }
{
    if fields.len() != 5 {
        return None;
    }
    Some(Fields {
        id: field_in(fields, 0),
        x: field_in(fields, 1),
        y: field_in(fields, 2),
        a: field_in(fields, 3),
        b: field_in(fields, 4),
    })
}

fn is_header(fields: &ByteRecord) -> bool
    ensures { result ≡ is_header_of fence_table (fields_of fields.now) }
{
    let Some(fields) = fields_in(fields) else {
        return false;
    };
    is_text(fields.id, "fence")
        && is_text(fields.x, "x")
        && is_text(fields.y, "y")
        && is_text(fields.a, "a")
        && is_text(fields.b, "b")
}

// The fence of a record that comes after these fences, or what is wrong with it.
fn fence_of(earlier: &[Fence], fields: &ByteRecord) -> Result<Fence, Wrong>
    ensures { result ≡ fence_of earlier.now (fields_of fields.now) }
{
    let Some(fields) = fields_in(fields) else {
        return Err(Wrong::Length);
    };
    let id = number_at(1, ID, fields.id)?;
    if has_fence(earlier, id) {
        return Err(Wrong::Column(1));
    }
    fence_at(id, &fields)
}

// The fence with this id and the numbers of columns 2 to 5, or the leftmost faulty column.
fn fence_at(id: u64, fields: &Fields<'_>) -> Result<Fence, Wrong>
    ensures { result ≡ fence_at id fields.now.x.now fields.now.y.now fields.now.a.now fields.now.b.now }
{
    let x = number_at(2, COORDINATE, fields.x)?;
    let y = number_at(3, COORDINATE, fields.y)?;
    let a = number_at(4, at_least(x), fields.a)?;
    let b = number_at(5, at_least(y), fields.b)?;
    Ok(Fence {
        id,
        region: Region {
            lo: point_of(x, y),
            hi: point_of(a, b),
        },
    })
}
