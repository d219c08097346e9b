//! If its value may be sent, a lock may be shared by threads and sent between them, and a pass may be sent.
use crate::held::Held;
use crate::lock::BookLock;
use crate::pass::Pass;

fn sent<T: Send>() {}

fn shared<T: Sync>() {}

fn pass_may_be_sent<V: Send>() {
    sent::<Pass<V>>();
}

fn lock_may_be_sent<V: Held + Send>() {
    sent::<BookLock<V>>();
}

fn lock_may_be_shared<V: Held + Send>() {
    shared::<BookLock<V>>();
}
