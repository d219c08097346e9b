//! Random objects, points and boxes.
ghost use Rattle.zorder.specs.Region.{IsBox};
ghost use Rattle.store_client.specs.Caller.{Keeps};

use crate::plan::Plan;
use disk_trait::LogDisk;
use index_layer::Index;
use sessions::{CallFault, Start};
use std::sync::Wait;
use store_client::Client;
use zorder::{Point, Region};

/// All positions.
pub const ALL: Region = Region {
    lo: Point { x: 0, y: 0 },
    hi: Point {
        x: u32::MAX,
        y: u32::MAX,
    },
};

/// All positions except those at the edge.
pub const INNER: Region = Region {
    lo: Point { x: 1, y: 1 },
    hi: Point {
        x: u32::MAX - 1,
        y: u32::MAX - 1,
    },
};

/// A point that a number determines (`splitmix64`).
pub fn point_of(number: u64) -> Point {
    let mut mixed = number.wrapping_mul(0x9e37_79b9_7f4a_7c15);
    mixed = (mixed ^ (mixed >> 30)).wrapping_mul(0xbf58_476d_1ce4_e5b9);
    mixed = (mixed ^ (mixed >> 27)).wrapping_mul(0x94d0_49bb_1331_11eb);
    mixed ^= mixed >> 31;
    Point {
        x: u32::try_from(mixed >> 32).unwrap_or(u32::MAX),
        y: (mixed & 0xffff_ffff) as u32,
    }
}

/// A box with about 64 of so many objects.
pub fn box_of(number: u64, objects: u32) -> Region
    ensures { IsBox result }
{
    let lo = point_of(number);
    let side = u32::MAX >> ((objects / 64).max(1).ilog2() / 2);
    Region {
        lo,
        hi: Point {
            x: lo.x.saturating_add(side),
            y: lo.y.saturating_add(side),
        },
    }
}

/// Puts all objects of a plan into an empty store.
pub fn fill<I: Index, D: LogDisk, O: Start, R: Wait>(
    rt: &R,
    client: &mut Client<'_, I, D, O>,
    plan: &Plan,
) -> Result<(), CallFault>
    ensures { Keeps client.old client.new }
{
    for id in 0..u64::from(plan.objects) {
        client.put(rt, id, point_of(id), 0)?;
    }
    Ok(())
}
