//! What a call has changed.
ghost use Rattle.std.specs.Prelude.{◌≡◌};
ghost use Rattle.plain_list.specs.Changes.{change_of};

use crate::ops::{Answer, Op};
use zorder::Point;

/// One change of one object, with the place of its call in the history. The object is nowhere before it was put, and after it was removed.
///
/// This is all that a tally of fences has to be told of a call.
#[derive(Clone, Copy, Debug, PartialEq, Eq)]
pub struct Change {
    pub place: u64,
    pub id: u64,
    pub before: Option<Point>,
    pub after: Option<Point>,
}

impl Change {
    /// What a call of this operation with this answer has changed: nothing if it was a query, or if its answer says that nothing changed.
    pub fn of(place: u64, op: &Op, answer: &Answer) -> Option<Change>
        ensures { result ≡ change_of place op.now answer.now }
    {
        let (id, before, after) = match (op, answer) {
            (Op::Put { id, at, moment: _ }, Answer::Done) => (*id, None, Some(*at)),
            (Op::Move { id, at, moment: _ }, Answer::Moved(from)) => {
                (*id, Some(from.at), Some(*at))
            }
            (Op::Remove { id }, Answer::Gone(from)) => (*id, Some(from.at), None),
            _ => return None,
        };
        Some(Change {
            place,
            id,
            before,
            after,
        })
    }
}
