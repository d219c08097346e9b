//! The objects that rows represent.
ghost use Rattle.std.specs.Prelude.{◌≡◌};
ghost use Rattle.table_share.specs.Objects.{placed_of};

use bucket_versions::Row;
use zorder::{Placed, point};

/// Returns the object of a row: the row's id, at the point of the row's key.
pub fn placed(row: &Row) -> Placed
    ensures { result ≡ placed_of row.now }
{
    Placed {
        id: row.id,
        at: point(row.key),
    }
}
