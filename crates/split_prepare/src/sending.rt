//! Checks at compile time that a ticket and a `Prepared` can be sent to other threads.
use crate::prepared::Prepared;
use crate::ticket::SplitTicket;

fn sent<T: Send>() {}

fn may_be_sent() {
    sent::<SplitTicket>();
    sent::<Prepared>();
}
