//! The answer of a world to an operation, computed on the plain list.
ghost use Rattle.std.specs.Prelude.{◌≡◌, IfOk};
ghost use Rattle.plain_list.specs.Answer.{answer_of, moved_or_stale};

use crate::boxes::within;
use crate::nearest::near;
use crate::ops::{Answer, Op};
use crate::searches::find_id;
use crate::world::{MOST_MEMBERS, Stamped, World};
use std::alloc::Global;
use zorder::Memory;

/// Returns the answer of a world to an operation. The world is unchanged; `after` returns the changed one.
pub fn answer(alloc: Global, world: &World, op: &Op) -> Result<Answer, Memory>
    ensures { IfOk result (λ a. a ≡ answer_of world.now op.now) }
{
    match *op {
        Op::Put { id, .. } => Ok(match find_id(world, id) {
            Some(kept) => Answer::Present(kept),
            None => {
                if world.as_slice().len() >= MOST_MEMBERS {
                    Answer::Full
                } else {
                    Answer::Done
                }
            }
        }),
        Op::Move { id, moment, .. } => Ok(match find_id(world, id) {
            Some(kept) => moved_or_stale(moment, kept),
            None => Answer::Absent,
        }),
        Op::Remove { id } => Ok(match find_id(world, id) {
            Some(kept) => Answer::Gone(kept),
            None => Answer::Absent,
        }),
        Op::Find { id } => Ok(match find_id(world, id) {
            Some(kept) => Answer::At(kept),
            None => Answer::Absent,
        }),
        Op::Within { region } => within(alloc, world, &region),
        Op::Near { at, k } => near(alloc, world, at, k),
    }
}

// The answer to a move with this moment to an object with this position.
fn moved_or_stale(moment: u64, kept: Stamped) -> Answer
    ensures { result ≡ moved_or_stale moment kept }
{
    if moment < kept.moment {
        Answer::Stale(kept)
    } else {
        Answer::Moved(kept)
    }
}
