//! The objects of a store in one call, and a tally of fences that begins with them.
ghost use Rattle.store_client.specs.Caller.{Keeps};

use crate::stores::{events_of, new_store};
use disk_mem::MemDisk;
use disk_trait::LogDisk;
use fence_watch::{Crossing, Event, Fence, Fences, Tally};
use flat_index::FlatIndex;
use index_layer::Index;
use plain_list::{Member, Op, World};
use std::alloc::Global;
use std::marker::Brand;
use std::process::Abort;
use std::sync::Wait;
use store_client::Client;
use zorder::{Point, Region};

const HERE: Point = Point { x: 5, y: 5 };

const THERE: Point = Point { x: 8, y: 9 };

macro_rules! object {
    ($id:expr, $at:expr, $moment:expr) => {
        Member {
            id: $id,
            at: $at,
            moment: $moment,
        }
    };
}

fn put_three<I: Index, D: LogDisk, R: Wait>(rt: &R, client: &mut Client<'_, I, D, Brand>)
    ensures { Keeps client.old client.new }
{
    let _ = client.put(rt, 9, HERE, 10);
    let _ = client.put(rt, 7, HERE, 15);
    let _ = client.put(rt, 4, THERE, 20);
}

// One is moved, one is moved too late, and one is removed.
fn change_three<I: Index, D: LogDisk, R: Wait>(rt: &R, client: &mut Client<'_, I, D, Brand>)
    ensures { Keeps client.old client.new }
{
    let _ = client.move_to(rt, 4, HERE, 21);
    let _ = client.move_to(rt, 9, THERE, 9);
    let _ = client.remove(rt, 7);
}

const LEFT: &[Member] = &[object!(4, HERE, 21), object!(9, HERE, 10)];

const ONE_MORE: &[Member] = &[
    object!(4, HERE, 21),
    object!(6, THERE, 30),
    object!(9, HERE, 10),
];

// The objects at first, after what a client did, and after what another client did that it never met.
fn worlds<I: Index, D: LogDisk, R: Wait>(
    rt: &R,
    client: &mut Client<'_, I, D, Brand>,
    other: &mut Client<'_, I, D, Brand>,
) -> (Option<World>, Option<World>, Option<World>)
    ensures one { Keeps client.old client.new }
    ensures other { Keeps other.old other.new }
{
    let nothing = client.world(rt).ok();
    put_three(rt, client);
    change_three(rt, client);
    let left = client.world(rt).ok();
    let _ = other.put(rt, 6, THERE, 30);
    (nothing, left, client.world(rt).ok())
}

/// Whether these are the objects of a world.
pub fn are_objects(world: &Option<World>, objects: &[Member]) -> bool {
    matches!(world, Some(world) if world.as_slice() == objects)
}

fn is_told_its_objects<I: Index, D: LogDisk, R: Wait + Abort>(rt: &R, alloc: Global) {
    let (store, pass) = new_store::<I, D>(rt, alloc);
    let mut client = Client::new(&store, alloc, pass, 7);
    let mut other = client.another(8);
    let (nothing, left, one_more) = worlds(rt, &mut client, &mut other);
    client.join(other);
    let pass = client.into_pass();
    let events = events_of(store.close(pass));
    assert_is!(rt; are_objects(&nothing, &[]));
    assert_is!(rt; are_objects(&left, LEFT));
    assert_is!(rt; are_objects(&one_more, ONE_MORE));
    assert_same!(rt; events, 7);
}

// Around the one point, and around both.
const FENCES: &[Fence] = &[
    Fence {
        id: 1,
        region: Region {
            lo: Point { x: 4, y: 4 },
            hi: Point { x: 6, y: 6 },
        },
    },
    Fence {
        id: 2,
        region: Region {
            lo: Point { x: 0, y: 0 },
            hi: Point { x: 9, y: 9 },
        },
    },
];

// The objects before a move of one of them, the place of that move, and the objects after it.
fn moves_one<I: Index, D: LogDisk, R: Wait>(
    rt: &R,
    client: &mut Client<'_, I, D, Brand>,
) -> (Option<World>, Option<u64>, Option<World>)
    ensures { Keeps client.old client.new }
{
    put_three(rt, client);
    let before = client.world(rt).ok();
    let go = Op::Move {
        id: 9,
        at: THERE,
        moment: 11,
    };
    let place = client.ask(rt, &go).map(|reply| reply.place).ok();
    (before, place, client.world(rt).ok())
}

fn is_counted<I: Index, D: LogDisk, R: Wait + Abort>(rt: &R, alloc: Global) {
    let (store, pass) = new_store::<I, D>(rt, alloc);
    let mut client = Client::new(&store, alloc, pass, 7);
    let (before, place, after) = moves_one(rt, &mut client);
    let pass = client.into_pass();
    let _ = events_of(store.close(pass));
    let before = before.expect(rt, "no memory");
    let place = place.expect(rt, "nothing is moved");
    let after = after.expect(rt, "no memory");
    counts_on(rt, alloc, &before, place, &after);
}

// How many objects are inside each fence.
fn inside(rt: &impl Abort, tally: &Tally) -> [u64; 2] {
    match tally.counts() {
        [one, two] => [one.inside, two.inside],
        _ => rt.panic("there are two fences"),
    }
}

const LEFT_ONE: &[Event] = &[Event {
    at: 4,
    crossing: Crossing::Leave,
    id: 9,
    fence: 1,
}];

// A tally over the objects before continues with the move, and then equals a tally over the objects after it.
fn counts_on(rt: &impl Abort, alloc: Global, before: &World, place: u64, after: &World) {
    let fences = Fences::of(alloc, FENCES).expect(rt, "the fences are at fault");
    let mut tally = Tally::over(alloc, &fences, before).expect(rt, "no memory");
    assert_same!(rt; inside(rt, &tally), [2, 3]);
    tally
        .moved(place, 9, Some(HERE), Some(THERE))
        .expect(rt, "no step is made");
    assert_same!(rt; inside(rt, &tally), [1, 3]);
    assert_same!(rt; tally.events(), LEFT_ONE);
    let anew = Tally::over(alloc, &fences, after).expect(rt, "no memory");
    assert_same!(rt; inside(rt, &anew), [1, 3]);
}

#[test]
fn a_store_tells_its_objects_in_the_order_of_their_ids(rt: HostRuntime) {
    is_told_its_objects::<FlatIndex, MemDisk, HostRuntime>(&rt, rt.alloc());
}

#[test]
fn a_tally_begins_with_the_objects_of_a_store(rt: HostRuntime) {
    is_counted::<FlatIndex, MemDisk, HostRuntime>(&rt, rt.alloc());
}
