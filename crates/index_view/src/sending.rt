//! Checks at compile time that a view can be sent to other threads and shared by them where its index can.
use crate::view::View;
use index_layer::Index;

fn sent<T: Send>() {}

fn shared<T: Sync>() {}

fn view_may_be_sent<I: Index + Send>() {
    sent::<View<I>>();
}

fn view_may_be_shared<I: Index + Sync>() {
    shared::<View<I>>();
}
