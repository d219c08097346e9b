//! The state at which a book began.
ghost use Rattle.std.specs.Prelude.{◌≡◌, []};
ghost use Rattle.index_layer.specs.Leaves.{names_of};

use index_layer::Index;
use point_table::PointTable;
use std::marker::Model;
use std::snapshot::Snapshot;

/// The state at which a book began. Only contracts see it.
#[derive(Drop)]
pub(crate) struct Opening<I: Index> {
    table: Snapshot<PointTable<I>>,
    begun: Snapshot<u64>,
}

impl<I: Index> Model for Opening<I> {
    ghost use Rattle.std.specs.Prelude.{[]};
    ghost use Rattle.index_layer.specs.Leaves.{names_of};
    ghost use Rattle.plain_list.specs.State.{State};

    ghost Value = { State };

    ghost view = { λ o. record {
      world = o.table.value.world;
      leaves = names_of o.table.value.leaves;
      splits = [];
      begun = o.begun.value;
    } };
}

impl<I: Index> Opening<I> {
    /// The state of a table with no split open, after this many were begun.
    pub(crate) fn of(table: &PointTable<I>, begun: u64) -> Opening<I>
        ensures { result ≡ record { world = table.now.world; leaves = names_of table.now.leaves; splits = []; begun = begun } }
    {
        Opening {
            table: Snapshot::of(table),
            begun: Snapshot::of(&begun),
        }
    }
}
