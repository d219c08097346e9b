//! Views of a store. Each view stays unchanged while the store changes, and after the store has ended.
ghost use Rattle.store_client.specs.Caller.{Keeps};

use crate::stores::{events_of, new_store};
use disk_mem::MemDisk;
use disk_trait::LogDisk;
use flat_index::FlatIndex;
use index_layer::Index;
use index_view::View;
use std::alloc::Global;
use std::marker::Brand;
use std::process::Abort;
use std::sync::Wait;
use store_client::Client;
use zorder::{Point, Region};

const HERE: Point = Point { x: 5, y: 5 };

const THERE: Point = Point { x: 8, y: 9 };

const AROUND_HERE: Region = Region {
    lo: Point { x: 4, y: 4 },
    hi: Point { x: 6, y: 6 },
};

// A view of two objects, and one after one of them was moved and another one was put.
fn views<I: Index, D: LogDisk, R: Wait>(
    rt: &R,
    client: &mut Client<'_, I, D, Brand>,
) -> (Option<View<I>>, Option<View<I>>)
    ensures { Keeps client.old client.new }
{
    let _ = client.put(rt, 1, HERE, 3);
    let _ = client.put(rt, 2, THERE, 3);
    let first = client.view(rt).ok();
    let _ = client.move_to(rt, 2, HERE, 4);
    let _ = client.put(rt, 3, HERE, 5);
    (first, client.view(rt).ok())
}

// Whether there is a view of this place with `all` objects, `here` of them around the one point.
fn has_seen<I: Index>(view: &Option<View<I>>, place: u64, all: u64, here: u64) -> bool {
    let Some(view) = view else {
        return false;
    };
    view.place() == place && view.len() == all && view.count(&AROUND_HERE) == here
}

fn hands_out_views<I: Index, D: LogDisk, R: Wait + Abort>(rt: &R, alloc: Global) {
    let (store, pass) = new_store::<I, D>(rt, alloc);
    let mut client = Client::new(&store, alloc, pass, 7);
    let (first, second) = views(rt, &mut client);
    let pass = client.into_pass();
    let events = events_of(store.close(pass));
    assert_is!(rt; has_seen(&first, 2, 2, 1));
    assert_is!(rt; has_seen(&second, 4, 3, 3));
    assert_same!(rt; events, 4);
}

#[test]
fn a_view_stays_as_it_is_while_its_store_changes_and_ends(rt: HostRuntime) {
    hands_out_views::<FlatIndex, MemDisk, HostRuntime>(&rt, rt.alloc());
}
