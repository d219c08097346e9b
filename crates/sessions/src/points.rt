//! What is done outside the lock: reaching a gate's points and preparing splits.
//!
//! Each function requires a pass that doesn't hold the lock. `queries` requires the same for an answer. A function of the
//! store that gets a gate makes `Points` of it first. The functions that it calls can reach the gate only through them.
ghost use Rattle.std.specs.Prelude.{◌≡◌, false, IfOk};
ghost use Rattle.std.specs.Arc.{arc_value};
ghost use Rattle.commit_book.specs.SplitSteps.{CanPrepare};
ghost use Rattle.split_prepare.specs.Prepared.{prepared_of};

use book_lock::Pass;
use index_layer::Index;
use io_edge::{Gate, GatePoint};
use split_prepare::{Prepared, SplitTicket, prepare};
use std::alloc::Global;
use zorder::Memory;

/// The points of a gate.
#[derive(Drop)]
pub(crate) struct Points<'g, G: Gate> {
    gate: &'g G,
}

impl<'g, G: Gate> Points<'g, G> {
    pub(crate) fn at(gate: &'g G) -> Points<'g, G> {
        Points { gate }
    }

    pub(crate) fn reach<V>(&self, point: GatePoint, session: u8, pass: &Pass<V>)
        requires free { pass.now.holds ≡ false }
    {
        let _ = pass;
        self.gate.reach(point, session);
    }
}

/// The children of a leaf whose split has begun.
pub(crate) fn prepare_free<I: Index, V>(
    alloc: Global,
    ticket: &SplitTicket,
    pass: &Pass<V>,
) -> Result<Prepared, Memory>
    requires free { pass.now.holds ≡ false }
    requires ticket { CanPrepare I.WIDTH ticket.now }
    ensures prepared { IfOk result (λ p. p ≡ prepared_of I.WIDTH ticket.now.number ticket.now.name (arc_value ticket.now.bucket).base) }
{
    let _ = pass;
    prepare(alloc, ticket, I::WIDTH)
}
