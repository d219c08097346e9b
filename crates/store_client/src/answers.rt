//! The answers of each verb, and how they come from the answer of the call that it makes.
ghost use Rattle.std.specs.Prelude.{◌≡◌};
ghost use Rattle.store_client.specs.Verbs.{put_answer, move_answer, gone_answer, at_answer, listed_answer, nearest_answer, IsOfPut, IsOfMove, IsOfRemove, IsOfFind, IsOfWithin, IsOfNear, put_report};

use plain_list::{Answer, PlacedList, Stamped};
use sessions::CallFault;

/// The answers to a put.
#[derive(Clone, Copy, Debug, PartialEq, Eq)]
pub enum PutReply {
    /// The object is new, and is where it was put.
    Done,
    /// There is an object with this id already. It stays where it is.
    Present(Stamped),
    /// The store has as many objects as it may have.
    Full,
}

/// The answers to a move.
#[derive(Clone, Copy, Debug, PartialEq, Eq)]
pub enum MoveReply {
    /// The object was moved from here.
    From(Stamped),
    /// The object has a later moment than the move. It stays where it is.
    Stale(Stamped),
    /// There is no such object.
    Absent,
}

/// The answers to a query for all objects in a box.
#[derive(Drop)]
pub enum Listed {
    All(PlacedList),
    /// There are too many for a list. This is their number.
    Many(u64),
}

/// The answers to a report.
#[derive(Clone, Copy, Debug, PartialEq, Eq)]
pub enum Report {
    /// The object is new.
    New,
    /// The object was moved from here.
    From(Stamped),
    /// The object has a later moment than the report. It stays where it is.
    Stale(Stamped),
    /// There is no such object, and the store has as many objects as it may have.
    Full,
}

/// The reply of a put that was answered so.
pub fn put_reply(answer: Answer) -> PutReply
    requires { IsOfPut answer }
    ensures { put_answer result ≡ answer }
{
    match answer {
        Answer::Done => PutReply::Done,
        Answer::Present(kept) => PutReply::Present(kept),
        Answer::Full => PutReply::Full,
        _ => unreachable!(),
    }
}

/// The reply of a move that was answered so.
pub fn move_reply(answer: Answer) -> MoveReply
    requires { IsOfMove answer }
    ensures { move_answer result ≡ answer }
{
    match answer {
        Answer::Moved(from) => MoveReply::From(from),
        Answer::Stale(kept) => MoveReply::Stale(kept),
        Answer::Absent => MoveReply::Absent,
        _ => unreachable!(),
    }
}

/// The reply of a removal that was answered so.
pub fn gone_reply(answer: Answer) -> Option<Stamped>
    requires { IsOfRemove answer }
    ensures { gone_answer result ≡ answer }
{
    match answer {
        Answer::Gone(from) => Some(from),
        Answer::Absent => None,
        _ => unreachable!(),
    }
}

/// The reply of a look-up that was answered so.
pub fn at_reply(answer: Answer) -> Option<Stamped>
    requires { IsOfFind answer }
    ensures { at_answer result ≡ answer }
{
    match answer {
        Answer::At(kept) => Some(kept),
        Answer::Absent => None,
        _ => unreachable!(),
    }
}

/// The reply of a query for a box that was answered so.
pub fn listed_reply(answer: Answer) -> Listed
    requires { IsOfWithin answer }
    ensures { listed_answer result ≡ answer }
{
    match answer {
        Answer::Found(objects) => Listed::All(objects),
        Answer::Many(number) => Listed::Many(number),
        _ => unreachable!(),
    }
}

/// The reply of a query for the nearest objects that was answered so.
pub fn nearest_reply(answer: Answer) -> PlacedList
    requires { IsOfNear answer }
    ensures { nearest_answer result ≡ answer }
{
    match answer {
        Answer::Found(objects) => objects,
        _ => unreachable!(),
    }
}

/// The answer of a report whose put returned this. It is `None` if another caller has put the object before.
pub fn put_report(told: Result<PutReply, CallFault>) -> Result<Option<Report>, CallFault>
    ensures { result ≡ put_report told }
{
    match told {
        Ok(PutReply::Done) => Ok(Some(Report::New)),
        Ok(PutReply::Full) => Ok(Some(Report::Full)),
        Ok(PutReply::Present(_)) => Ok(None),
        Err(fault) => Err(fault),
    }
}
