//! The first objects of a browse.
ghost use Rattle.std.specs.Prelude.{◌≡◌, take, IfOk};

use browse_query::Browse;
use index_layer::Index;
use plain_list::PlacedList;
use std::alloc::Global;
use std::sync::ledger::Ledger;
use step_count::Steps;
use zorder::Memory;

/// Returns the next `most` objects of a browse, or all that are left if there are fewer. It takes memory for `room`
/// objects first.
pub(crate) fn first_of<I: Index, L: Ledger>(
    alloc: Global,
    mut browse: Browse<'_, I>,
    most: u32,
    room: usize,
    steps: &mut Steps<L>,
) -> Result<PlacedList, Memory>
    ensures { IfOk result (λ list. list ≡ take most browse.entry.objects) }
{
    let mut found = Vec::with_capacity(alloc, room)?;
    while found.len() < most as usize {
        let Some(object) = browse.next_counted(steps)? else {
            return Ok(PlacedList::from_vec(found));
        };
        found.push(object)?;
    }
    Ok(PlacedList::from_vec(found))
}
