//! The cells of a fresh log, one after the other.
ghost use Rattle.std.specs.Prelude.{◌≡◌, ◌⊎◌, ◌<◌, ◌^◌, length};
ghost use Rattle.zorder.specs.Width.{IsWidth};
ghost use Rattle.log_compact.specs.Fresh.{fresh_cells};
ghost use Rattle.plain_list.specs.State.{ComesBySplits};
ghost use Rattle.log_compact.specs.State.{IsStateOf};

use crate::laws::names_are_short;
use crate::names::InnerNames;
use cell_format::Cell;
use plain_list::Member;
use recovery::Seen;
use std::marker::Model;

/// An iterator over the cells of a fresh log. It computes each cell when the caller needs it. Contracts see it as the
/// cells that are left.
#[derive(Drop)]
pub(crate) struct FreshCells<'a> {
    names: InnerNames<'a>,
    // The number of splits that were begun, and whether the last of them is to be installed next.
    begun: u64,
    due: bool,
    members: &'a [Member],
}

impl<'a> Model for FreshCells<'a> {
    ghost use Rattle.std.specs.Prelude.{List, ◌+◌, ◌<◌, ◌^◌, length};
    ghost use Rattle.cell_format.specs.declared.cell.Cell.{Cell};

    ghost Value = { List Cell };

    ghost use Rattle.log_compact.specs.Walk.{cells_left};

    ghost view = { λ c. cells_left c.begun c.due c.names c.members.now };

    ghost invariant = { λ c. c.begun + length c.names < 2 ^ 64 };
}

impl<'a> FreshCells<'a> {
    pub(crate) fn of(seen: &'a Seen, width: u8) -> FreshCells<'a>
        requires width { IsWidth width }
        requires splits { ComesBySplits width seen.now.leaves }
        requires few { length (fresh_cells width seen.now.world seen.now.leaves) < 2 ^ 63 }

        ensures cells { result ≡ fresh_cells width seen.now.world seen.now.leaves }
        ensures state { IsStateOf width result seen.now.world seen.now.leaves }
    {
        let leaves = seen.leaves.as_slice();
        names_are_short(leaves);
        FreshCells {
            names: InnerNames::over(leaves, width),
            begun: 0,
            due: false,
            members: seen.world.as_slice(),
        }
    }
}

impl<'a> Iterator for FreshCells<'a> {
    ghost use Rattle.std.specs.Iterator.{YieldsFirst, item_count};

    type Item = Cell;

    ghost next_gives = { YieldsFirst (λ left. left) };

    ghost remaining = { item_count (λ left. left) };

    // A split is begun and installed at once, before the splits under it. The objects come last.
    fn next(&mut self) -> Option<Cell> {
        if self.due {
            self.due = false;
            return Some(Cell::Install { number: self.begun });
        }
        if let Some(name) = self.names.next() {
            self.begun += 1;
            self.due = true;
            return Some(Cell::Begin {
                number: self.begun,
                name,
            });
        }
        let (member, others) = self.members.split_first()?;
        self.members = others;
        Some(Cell::Put {
            id: member.id,
            at: member.at,
            moment: member.moment,
        })
    }
}
