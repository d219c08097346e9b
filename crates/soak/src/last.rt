//! Looks up all objects at the end of a run.
ghost use Rattle.store_client.specs.Caller.{Keeps};

use crate::judge::Judge;
use crate::trouble::Trouble;
use disk_trait::LogDisk;
use index_layer::Index;
use plain_list::Stamped;
use sessions::{CallFault, Start};
use std::sync::Wait;
use store_client::{Client, Listed};
use zorder::{Placed, Point, Region};

// All positions.
const ALL: Region = Region {
    lo: Point { x: 0, y: 0 },
    hi: Point {
        x: u32::MAX,
        y: u32::MAX,
    },
};

/// Reads how many objects there are, and looks up each by its id and by a box of its position. So there are no others.
pub fn look_at_all<I: Index, D: LogDisk, O: Start, R: Wait>(
    rt: &R,
    client: &mut Client<'_, I, D, O>,
    judge: &Judge,
) -> Result<(), Trouble>
    ensures { Keeps client.old client.new }
{
    let should = judge.kept.len() as u64;
    let found = match client.within(rt, ALL)? {
        Listed::All(list) => list.as_slice().len() as u64,
        Listed::Many(count) => count,
    };
    if found != should {
        return Err(Trouble::Number { found, should });
    }
    for (id, kept) in &judge.kept {
        let is_there = is_there(rt, client, *id, *kept)?;
        if !is_there {
            return Err(Trouble::Object { id: *id });
        }
    }
    Ok(())
}

/// Whether an object is found by its id and by its position.
pub fn is_there<I: Index, D: LogDisk, O: Start, R: Wait>(
    rt: &R,
    client: &mut Client<'_, I, D, O>,
    id: u64,
    kept: Stamped,
) -> Result<bool, CallFault>
    ensures { Keeps client.old client.new }
{
    let Stamped { at, moment: _ } = kept;
    let found = client.find(rt, id)?;
    let is_listed = match client.within(rt, Region { lo: at, hi: at })? {
        Listed::All(list) => list.as_slice().contains(&Placed { id, at }),
        Listed::Many(_) => false,
    };
    Ok(found == Some(kept) && is_listed)
}
