//! A store in memory that goes on past the entries that a list takes.
use flat_index::FlatIndex;
use pisrakun::{Index, MemoryStore, Point, PutReply, Stamped};
use std::alloc::Global;
use std::process::Abort;
use std::sync::Wait;

// More finds than entries that are kept in a list.
const FINDS: u64 = 4_200_000;

const HERE: Point = Point { x: 5, y: 5 };

// Finds the object so often, and returns how often it was there.
fn find_often<I: Index, R: Wait>(rt: &R, store: &mut MemoryStore<I>) -> u64 {
    let mut found = 0u64;
    for _ in 0..FINDS {
        match store.find(rt, 1) {
            Ok(Some(_)) => found = found.saturating_add(1),
            _ => return found,
        }
    }
    found
}

// Five puts at one point, so the one leaf is split. Returns how many were done.
fn put_five<I: Index, R: Wait>(rt: &R, store: &mut MemoryStore<I>) -> u64 {
    let mut done = 0u64;
    for id in 2..7 {
        if store.put(rt, id, HERE, id) == Ok(PutReply::Done) {
            done = done.saturating_add(1);
        }
    }
    done
}

// How often the object was found, how many puts were done, where the last object is, the place of its find, whether
// leaves are split no more, and how many entries there are beside the calls.
type Gone = (u64, u64, Option<Option<Stamped>>, u64, bool, u64);

fn goes_on<I: Index, R: Wait + Abort>(rt: &R, alloc: Global) -> Gone {
    let Ok(mut store) = MemoryStore::<I>::in_memory(alloc, 4) else {
        rt.panic("no store is made")
    };
    let fresh = store.room(rt).entries;
    let _ = store.put(rt, 1, HERE, 1);
    let found = find_often(rt, &mut store);
    let done = put_five(rt, &mut store);
    let last = store.find(rt, 6).ok();
    let place = store.place();
    let near = store.is_near_end(rt);
    let entries = fresh.saturating_sub(store.room(rt).entries);
    store.close();
    (
        found,
        done,
        last,
        place,
        near,
        entries.saturating_sub(place),
    )
}

#[test]
fn a_store_in_memory_goes_on_past_four_million_calls(rt: HostRuntime) {
    let last = Some(Some(Stamped {
        at: HERE,
        moment: 6,
    }));
    let (found, done, told, place, near, splits) = goes_on::<FlatIndex, _>(&rt, rt.alloc());
    assert_same!(rt; (found, done), (FINDS, 5));
    assert_same!(rt; (told, place), (last, FINDS + 7));
    assert_same!(rt; near, false);
    assert_is!(rt; splits > 0);
}
