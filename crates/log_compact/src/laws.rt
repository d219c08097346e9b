//! What follows from types alone, or from what was found in a log.
ghost use Rattle.std.specs.Prelude.{◌≡◌, ◌⊎◌, ◌≤◌, List, length};
ghost use Rattle.zorder.specs.Width.{IsWidth};
ghost use Rattle.cell_format.specs.declared.cell.Cell.{Cell};
ghost use Rattle.log_state.specs.Recovers.{IsLegalCells};
ghost use Rattle.recovery.specs.Found.{Finds};
ghost use Rattle.log_compact.specs.Fresh.{fresh_cells};
ghost use Rattle.plain_list.specs.State.{ComesBySplits};
ghost use Rattle.log_compact.specs.Walk.{AreShort};

use recovery::Seen;
use zorder::Name;

/// The state of a log may be written as a fresh log, with no more cells than the log has.
pub fn fresh_cells_are_few(seen: &Seen, width: u8)
    requires { IsWidth width }

    ensures splits { (cells : List Cell) → Finds width cells seen.now → ComesBySplits width seen.now.leaves }
    ensures few { (cells : List Cell) → IsLegalCells width cells → Finds width cells seen.now
        → length (fresh_cells width seen.now.world seen.now.leaves) ≤ seen.now.cells }
{}

/// No name has more bits than a key.
pub(crate) fn names_are_short(names: &[Name])
    ensures { AreShort names.now }
{
    for name in names {
        let _len = name.len();
    }
}
