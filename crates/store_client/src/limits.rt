//! The limits of a store, and of one answer.
ghost use Rattle.std.specs.Prelude.{◌≡◌, ◌≤◌, ◌↔◌, ℕ, Bool, List, length, nat_le, if◌then◌else◌, Option};
ghost use Rattle.zorder.specs.declared.points.Placed.{Placed};
ghost use Rattle.zorder.specs.declared.points.Point.{Point};
ghost use Rattle.plain_list.specs.Answer.{IsValid};
ghost use Rattle.plain_list.specs.declared.ops.Answer.{Answer};
ghost use Rattle.plain_list.specs.declared.ops.Op.{Op};
ghost use Rattle.plain_list.specs.Queries.{listed};
ghost use Rattle.commit_book.specs.RoomLeft.{room_beside};
ghost use Rattle.sessions.specs.Steps.{all_parts};
ghost use Rattle.store_client.specs.Caller.{is_near};

pub use commit_book::MOST_CELLS_TO_BEGIN;
use commit_book::{MOST_EVENTS, MOST_EVENTS_TO_BEGIN, Room};
pub use plain_list::{MOST_LISTED, MOST_MEMBERS};
pub use split_log::MOST_CELLS;

/// The most objects that `nearest` returns.
pub const MOST_NEAREST: u32 = 2_048;

/// The most clients of a store at once.
pub const MOST_CLIENTS: usize = 65_536;

/// Whether there is too little room for a further split.
pub fn has_no_room(room: &Room) -> bool
    ensures { (kept : Bool) (cells : Option ℕ) (events : ℕ) → room.now ≡ room_beside kept cells events
        → result ≡ is_near kept cells events }
{
    // For both kinds of history as many entries are left after the last begin of a split.
    let is_log_full = match room.records {
        Some(records) => records < MOST_CELLS - MOST_CELLS_TO_BEGIN,
        None => false,
    };
    is_log_full || room.entries < MOST_EVENTS - MOST_EVENTS_TO_BEGIN
}

// They are the numbers of the contracts.
fn limits() -> (usize, u32, usize)
    ensures listed { (ms : List Placed) → listed ms ≡ (if nat_le (length ms) result.0 then Answer.Found ms else Answer.Many (length ms)) }
    ensures nearest { (at : Point) (k : ℕ) → IsValid (Op.Near at k) ↔ ((1 ≤ k) × (k ≤ result.1)) }
    ensures clients { result.2 ≡ all_parts }
{
    (MOST_LISTED, MOST_NEAREST, MOST_CLIENTS)
}
