//! What the dispatcher reads from a view: a map, the taxis near the station, and the nearest free one.
ghost use Rattle.std.specs.Prelude.{◌<◌};
ghost use Rattle.pisrakun.specs.Region.{IsBox};

use crate::town::{STATION, is_free};
use pisrakun::{Index, Memory, Placed, Point, Region, View};
use std::alloc::Global;

/// The map has so many tiles in a row, and so many rows.
pub const TILES: u32 = 4;

// The length of a tile's side.
const SIDE: u32 = 1 << 30;

/// A tile of the map. Columns count from the west, rows from the south.
pub fn tile(column: u32, row: u32) -> Region
    requires { (column < 4) × (row < 4) }
    ensures { IsBox result }
{
    let (x, y) = (column * SIDE, row * SIDE);
    Region {
        lo: Point { x, y },
        hi: Point {
            x: x + (SIDE - 1),
            y: y + (SIDE - 1),
        },
    }
}

/// The station and the streets around it.
pub const AROUND: Region = Region {
    lo: Point {
        x: STATION.x - 1000,
        y: STATION.y - 1000,
    },
    hi: Point {
        x: STATION.x + 1000,
        y: STATION.y + 1000,
    },
};

/// Returns the free taxi that is nearest to a point, if any taxi is free.
pub fn nearest_free<I: Index>(
    alloc: Global,
    view: &View<I>,
    at: Point,
) -> Result<Option<Placed>, Memory> {
    let mut taxis = view.browse(alloc, at);
    while let Some(taxi) = taxis.next()? {
        if is_free(taxi.id) {
            return Ok(Some(taxi));
        }
    }
    Ok(None)
}
