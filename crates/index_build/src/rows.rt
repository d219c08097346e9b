//! The rows of a world.
ghost use Rattle.std.specs.Prelude.{◌≡◌, map, IfOk};
ghost use Rattle.bucket_versions.specs.declared.row.Row.{Row};
ghost use Rattle.bucket_versions.specs.Rows.{IsRows, has_row};
ghost use Rattle.plain_list.specs.World.{places_of};
ghost use Rattle.index_layer.specs.Stands.{places_have};
ghost use Rattle.index_build.specs.WorldRows.{member_row};

use bucket_versions::Row;
use plain_list::{Member, World};
use std::alloc::{AllocError, Global};
use zorder::key;

/// Returns a row for each object, in order of key and id.
pub(crate) fn rows_of(alloc: Global, world: &World) -> Result<Vec<Row>, AllocError>
    ensures in_order { IfOk result (λ rows. IsRows rows.items) }
    ensures has { IfOk result (λ rows. (r : Row) → has_row r rows.items ≡ places_have (places_of world.now) r) }
{
    let mut rows = listed(alloc, world.as_slice())?;
    rows.sort_unstable_by_key(|row| (row.key, row.id));
    Ok(rows)
}

fn listed(alloc: Global, members: &[Member]) -> Result<Vec<Row>, AllocError>
    ensures { IfOk result (λ rows. rows.items ≡ map member_row members.now) }
{
    members
        .iter()
        .map(|m| Row {
            key: key(m.at),
            id: m.id,
        })
        .collect(alloc)
}
