//! Threads may share a store, and send a pass or a lane to each other, if the index and the drive may be sent.
use crate::shared::SharedBook;
use crate::start::Start;
use crate::store::{Lane, Store};
use book_lock::Pass;
use disk_trait::LogDisk;
use index_layer::Index;

fn sent<T: Send>() {}

fn shared<T: Sync>() {}

fn book_may_be_sent<I: Index + Send, D: LogDisk + Send, O: Start + Send>() {
    sent::<SharedBook<I, D, O>>();
}

fn pass_may_be_sent<I: Index + Send, D: LogDisk + Send, O: Start + Send>() {
    sent::<Pass<SharedBook<I, D, O>>>();
}

fn lane_may_be_sent<I: Index + Send, D: LogDisk + Send, O: Start + Send>() {
    sent::<Lane<I, D, O>>();
}

fn store_may_be_sent<I: Index + Send, D: LogDisk + Send, O: Start + Send>() {
    sent::<Store<I, D, O>>();
}

fn store_may_be_shared<I: Index + Send, D: LogDisk + Send, O: Start + Send>() {
    shared::<Store<I, D, O>>();
}
