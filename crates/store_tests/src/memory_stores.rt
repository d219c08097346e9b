//! Stores in memory that are made in one call.
use flat_index::FlatIndex;
use pisrakun::{InMemory, NotInMemory, in_memory};
use std::alloc::Global;

// Why there is no store with buckets of this size.
fn refusal(alloc: Global, bucket: u32) -> Option<NotInMemory> {
    match in_memory::<FlatIndex>(alloc, bucket) {
        Ok(InMemory { store, pass }) => {
            store.close(pass);
            None
        }
        Err(cause) => Some(cause),
    }
}

#[test]
fn a_store_in_memory_has_buckets_of_4_to_4_096(rt: HostRuntime) {
    for bucket in [0, 3, 4_097] {
        assert_same!(rt; refusal(rt.alloc(), bucket), Some(NotInMemory::Bucket));
    }
    for bucket in [4, 4_096] {
        assert_same!(rt; refusal(rt.alloc(), bucket), None);
    }
}
