//! What a command returns.
ghost use Rattle.std.specs.Prelude.{◌≡◌, [], ◌≤◌};
ghost use Rattle.run_ends.specs.Taking.{Refuses};

use crate::refusal_lines::put_refusal;
use crate::refusals::Refusal;
use io_edge::Sink;
use plain_list::Entries;
use std::alloc::Global;

/// Both drives of a run. Only `compact` and `follow` use the second one.
#[derive(Drop)]
pub struct Drives<D: Drop> {
    pub disk: D,
    pub other: D,
}

/// What a command returns: its status, the history of the rows that it called, and both drives. The history is empty if
/// it called none.
#[derive(Drop)]
pub struct Ended<D: Drop> {
    pub status: u8,
    pub history: Entries,
    pub drives: Drives<D>,
}

/// Ends a command that called no row, with this status.
pub fn without_rows<D: Drop>(alloc: Global, status: u8, drives: Drives<D>) -> Ended<D>
    ensures { result ≡ record { status = status; history = []; drives = drives } }
{
    Ended {
        status,
        history: Entries::empty(alloc),
        drives,
    }
}

/// Ends a command that called no row, with a refusal. It writes the line of the refusal.
pub fn refuse_on<K: Sink, D: Drop>(
    alloc: Global,
    why: &Refusal,
    sink: &mut K,
    drives: Drives<D>,
) -> Ended<D>
    ensures none { result.history ≡ [] }
    ensures drives { result.drives ≡ drives }
    ensures refused { Refuses why.now result.status (K.output sink.old) (K.output sink.new) }
    ensures later { (K.output sink.old).faults ≤ (K.output sink.new).faults }
{
    let status = put_refusal(why, sink);
    without_rows(alloc, status, drives)
}
