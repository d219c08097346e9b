//! The verbs of a client, with each answer that they may have, except that the world is full. The tests also look at
//! what a call has changed, at its place, and at what one client learns from another.
ghost use Rattle.std.specs.Prelude.{◌≡◌};
ghost use Rattle.plain_list.specs.Answer.{IsValid};
ghost use Rattle.store_client.specs.Caller.{Keeps};

use crate::stores::{events_of, new_store};
use disk_mem::MemDisk;
use disk_trait::LogDisk;
use flat_index::FlatIndex;
use index_layer::Index;
use plain_list::{Op, PlacedList, Stamped};
use std::alloc::Global;
use std::marker::Brand;
use std::process::Abort;
use std::sync::Wait;
use store_client::{
    Change, Client, Listed, MOST_LISTED, MOST_NEAREST, MoveReply, PutReply, Report,
};
use zorder::{Placed, Point, Region};

const HERE: Point = Point { x: 5, y: 5 };

const THERE: Point = Point { x: 8, y: 9 };

// A position of an object, at one point or the other, and its moment.
macro_rules! here {
    ($moment:expr) => {
        Stamped {
            at: HERE,
            moment: $moment,
        }
    };
}

macro_rules! there {
    ($moment:expr) => {
        Stamped {
            at: THERE,
            moment: $moment,
        }
    };
}

// An object is new, and was at one point before. A late report leaves it there, and a report with an equal moment isn't
// late.
const REPORTED: [Option<Report>; 4] = [
    Some(Report::New),
    Some(Report::From(here!(10))),
    Some(Report::Stale(there!(12))),
    Some(Report::From(there!(12))),
];

fn reports<I: Index, D: LogDisk, R: Wait>(
    rt: &R,
    client: &mut Client<'_, I, D, Brand>,
) -> [Option<Report>; 4]
    ensures lock { client.new.pass.lock ≡ client.old.pass.lock }
    ensures parts { client.new.pass.parts ≡ client.old.pass.parts }
{
    [
        client.report(rt, 1, HERE, 10).ok(),
        client.report(rt, 1, THERE, 12).ok(),
        client.report(rt, 1, HERE, 11).ok(),
        client.report(rt, 1, HERE, 12).ok(),
    ]
}

// The first report has two entries, a move and a put. Each other one has a move.
fn is_told_of_reports<I: Index, D: LogDisk, R: Wait + Abort>(rt: &R, alloc: Global) {
    let (store, pass) = new_store::<I, D>(rt, alloc);
    let mut client = Client::new(&store, alloc, pass, 7);
    let told = reports(rt, &mut client);
    let pass = client.into_pass();
    let events = events_of(store.close(pass));
    assert_same!(rt; told, REPORTED);
    assert_same!(rt; events, 5);
}

const PUT: [Option<PutReply>; 2] = [Some(PutReply::Done), Some(PutReply::Present(here!(3)))];

fn puts<I: Index, D: LogDisk, R: Wait>(
    rt: &R,
    client: &mut Client<'_, I, D, Brand>,
) -> [Option<PutReply>; 2]
    ensures lock { client.new.pass.lock ≡ client.old.pass.lock }
    ensures parts { client.new.pass.parts ≡ client.old.pass.parts }
{
    [
        client.put(rt, 1, HERE, 3).ok(),
        client.put(rt, 1, THERE, 4).ok(),
    ]
}

const MOVED: [Option<MoveReply>; 3] = [
    Some(MoveReply::From(here!(3))),
    Some(MoveReply::Stale(there!(4))),
    Some(MoveReply::Absent),
];

fn moves<I: Index, D: LogDisk, R: Wait>(
    rt: &R,
    client: &mut Client<'_, I, D, Brand>,
) -> [Option<MoveReply>; 3]
    ensures lock { client.new.pass.lock ≡ client.old.pass.lock }
    ensures parts { client.new.pass.parts ≡ client.old.pass.parts }
{
    [
        client.move_to(rt, 1, THERE, 4).ok(),
        client.move_to(rt, 1, HERE, 3).ok(),
        client.move_to(rt, 2, HERE, 3).ok(),
    ]
}

// One find returns the object, and one finds none. One removal returns the object, and one finds none.
const SEEN: [Option<Option<Stamped>>; 4] = [
    Some(Some(there!(4))),
    Some(None),
    Some(Some(there!(4))),
    Some(None),
];

fn finds_and_removes<I: Index, D: LogDisk, R: Wait>(
    rt: &R,
    client: &mut Client<'_, I, D, Brand>,
) -> [Option<Option<Stamped>>; 4]
    ensures lock { client.new.pass.lock ≡ client.old.pass.lock }
    ensures parts { client.new.pass.parts ≡ client.old.pass.parts }
{
    [
        client.find(rt, 1).ok(),
        client.find(rt, 2).ok(),
        client.remove(rt, 1).ok(),
        client.remove(rt, 1).ok(),
    ]
}

// One object is put, moved, found and removed, and another one isn't there. Each call has an entry.
fn is_told_of_an_object<I: Index, D: LogDisk, R: Wait + Abort>(rt: &R, alloc: Global) {
    let (store, pass) = new_store::<I, D>(rt, alloc);
    let mut client = Client::new(&store, alloc, pass, 7);
    let put = puts(rt, &mut client);
    let moved = moves(rt, &mut client);
    let seen = finds_and_removes(rt, &mut client);
    let pass = client.into_pass();
    let events = events_of(store.close(pass));
    assert_same!(rt; put, PUT);
    assert_same!(rt; moved, MOVED);
    assert_same!(rt; seen, SEEN);
    assert_same!(rt; events, 9);
}

// A client's own calls, with the change of each. The calls in between change nothing, but have places too.
const CHANGED: [Option<Change>; 6] = [
    Some(Change {
        place: 1,
        id: 1,
        before: None,
        after: Some(HERE),
    }),
    None,
    Some(Change {
        place: 3,
        id: 1,
        before: Some(HERE),
        after: Some(THERE),
    }),
    None,
    None,
    Some(Change {
        place: 6,
        id: 1,
        before: Some(THERE),
        after: None,
    }),
];

const PUT_HERE: Op = Op::Put {
    id: 1,
    at: HERE,
    moment: 3,
};

const MOVE_THERE: Op = Op::Move {
    id: 1,
    at: THERE,
    moment: 4,
};

const MOVE_LATE: Op = Op::Move {
    id: 1,
    at: HERE,
    moment: 3,
};

fn change<I: Index, D: LogDisk, R: Wait>(
    rt: &R,
    client: &mut Client<'_, I, D, Brand>,
    op: &Op,
) -> Option<Change>
    requires { IsValid op.now }
    ensures { Keeps client.old client.new }
{
    client.ask(rt, op).ok()?.change(op)
}

fn changes<I: Index, D: LogDisk, R: Wait>(
    rt: &R,
    client: &mut Client<'_, I, D, Brand>,
) -> [Option<Change>; 6]
    ensures { Keeps client.old client.new }
{
    [
        change(rt, client, &PUT_HERE),
        change(rt, client, &PUT_HERE),
        change(rt, client, &MOVE_THERE),
        change(rt, client, &MOVE_LATE),
        change(rt, client, &Op::Find { id: 1 }),
        change(rt, client, &Op::Remove { id: 1 }),
    ]
}

fn tells_its_changes<I: Index, D: LogDisk, R: Wait + Abort>(rt: &R, alloc: Global) {
    let (store, pass) = new_store::<I, D>(rt, alloc);
    let mut client = Client::new(&store, alloc, pass, 7);
    let told = changes(rt, &mut client);
    let pass = client.into_pass();
    let _ = events_of(store.close(pass));
    assert_same!(rt; told, CHANGED);
}

// 0 before the first call. A report of a new object has two entries, and returns the place of its put.
const PLACES: [u64; 4] = [0, 2, 3, 4];

fn places<I: Index, D: LogDisk, R: Wait>(rt: &R, client: &mut Client<'_, I, D, Brand>) -> [u64; 4]
    ensures { Keeps client.old client.new }
{
    let none = client.place();
    let _ = client.report(rt, 1, HERE, 3);
    let new = client.place();
    let _ = client.report(rt, 1, THERE, 4);
    let moved = client.place();
    let _ = client.find(rt, 1);
    [none, new, moved, client.place()]
}

fn tells_its_places<I: Index, D: LogDisk, R: Wait + Abort>(rt: &R, alloc: Global) {
    let (store, pass) = new_store::<I, D>(rt, alloc);
    let mut client = Client::new(&store, alloc, pass, 7);
    let told = places(rt, &mut client);
    let pass = client.into_pass();
    let _ = events_of(store.close(pass));
    assert_same!(rt; told, PLACES);
}

// After a client has learned from another one, it finds what the other one put.
fn learns_what_another_put<I: Index, D: LogDisk, R: Wait + Abort>(rt: &R, alloc: Global) {
    let (store, pass) = new_store::<I, D>(rt, alloc);
    let mut one = Client::new(&store, alloc, pass, 1);
    let mut four = one.another(4);
    let _ = one.put(rt, 1, HERE, 3);
    four.learn(&mut one);
    let found = four.find(rt, 1).ok();
    one.join(four);
    let pass = one.into_pass();
    let _ = events_of(store.close(pass));
    assert_same!(rt; found, Some(Some(here!(3))));
}

// The second client gets four parts. It gives two to the third and one to the fifth, and the third gives one to the
// fourth. After the second has taken in both, it finds what the third put. The fifth finds what the fourth put, after
// it has learned from the second.
fn gives_parts_on<I: Index, D: LogDisk, R: Wait + Abort>(rt: &R, alloc: Global) {
    let (store, pass) = new_store::<I, D>(rt, alloc);
    let mut one = Client::new(&store, alloc, pass, 1);
    let mut two = one.another_with(2, 4);
    let mut three = two.another_with(3, 2);
    let mut four = three.another(4);
    let mut five = two.another(5);
    let _ = three.put(rt, 3, HERE, 3);
    let _ = four.put(rt, 4, THERE, 4);
    three.join(four);
    two.join(three);
    five.learn(&mut two);
    let found = [two.find(rt, 3).ok(), five.find(rt, 4).ok()];
    two.join(five);
    one.join(two);
    let pass = one.into_pass();
    let events = events_of(store.close(pass));
    assert_same!(rt; found, [Some(Some(here!(3))), Some(Some(there!(4)))]);
    assert_same!(rt; events, 4);
}

// How many objects are put one after the other. It is one more than a list has room for.
const MANY: u32 = 2_049;

fn put_many<I: Index, D: LogDisk, R: Wait>(rt: &R, client: &mut Client<'_, I, D, Brand>)
    ensures { Keeps client.old client.new }
{
    for x in 0..MANY {
        let _ = client.put(rt, u64::from(x), Point { x, y: 0 }, 0);
    }
}

const ALL: Region = Region {
    lo: Point { x: 0, y: 0 },
    hi: Point { x: 2_048, y: 0 },
};

// All but the last.
const BUT_ONE: Region = Region {
    lo: Point { x: 0, y: 0 },
    hi: Point { x: 2_047, y: 0 },
};

fn is_number(told: &Option<Listed>, number: u64) -> bool {
    matches!(told, Some(Listed::Many(n)) if *n == number)
}

fn is_list(told: &Option<Listed>, len: usize) -> bool {
    matches!(told, Some(Listed::All(list)) if list.as_slice().len() == len)
}

// The two that are nearest to the first point, the nearest first.
const NEAREST: [Placed; 2] = [
    Placed {
        id: 0,
        at: Point { x: 0, y: 0 },
    },
    Placed {
        id: 1,
        at: Point { x: 1, y: 0 },
    },
];

fn are_nearest(told: &Option<PlacedList>) -> bool {
    matches!(told, Some(list) if list.as_slice() == NEAREST.as_slice())
}

fn are_so_many(told: &Option<PlacedList>, number: usize) -> bool {
    matches!(told, Some(list) if list.as_slice().len() == number)
}

// The answers to box queries.
fn boxes<I: Index, D: LogDisk, R: Wait>(
    rt: &R,
    client: &mut Client<'_, I, D, Brand>,
) -> (Option<Listed>, Option<Listed>)
    ensures lock { client.new.pass.lock ≡ client.old.pass.lock }
    ensures parts { client.new.pass.parts ≡ client.old.pass.parts }
{
    (client.within(rt, ALL).ok(), client.within(rt, BUT_ONE).ok())
}

// The nearest two, and as many as a query may name.
fn nears<I: Index, D: LogDisk, R: Wait>(
    rt: &R,
    client: &mut Client<'_, I, D, Brand>,
) -> (Option<PlacedList>, Option<PlacedList>)
    ensures lock { client.new.pass.lock ≡ client.old.pass.lock }
    ensures parts { client.new.pass.parts ≡ client.old.pass.parts }
{
    let from = Point { x: 0, y: 0 };
    (
        client.nearest(rt, from, 2).ok(),
        client.nearest(rt, from, MOST_NEAREST).ok(),
    )
}

fn is_told_of_many<I: Index, D: LogDisk, R: Wait + Abort>(rt: &R, alloc: Global) {
    let (store, pass) = new_store::<I, D>(rt, alloc);
    let mut client = Client::new(&store, alloc, pass, 7);
    put_many(rt, &mut client);
    let (all, but_one) = boxes(rt, &mut client);
    let (nearest, most) = nears(rt, &mut client);
    let pass = client.into_pass();
    let _ = events_of(store.close(pass));
    assert_is!(rt; is_number(&all, 2_049));
    assert_is!(rt; is_list(&but_one, MOST_LISTED));
    assert_is!(rt; are_nearest(&nearest));
    assert_is!(rt; are_so_many(&most, 2_048));
}

#[test]
fn a_report_tells_whether_its_object_is_new_or_comes_or_stays(rt: HostRuntime) {
    is_told_of_reports::<FlatIndex, MemDisk, HostRuntime>(&rt, rt.alloc());
}

#[test]
fn each_verb_of_one_object_tells_its_answers(rt: HostRuntime) {
    is_told_of_an_object::<FlatIndex, MemDisk, HostRuntime>(&rt, rt.alloc());
}

#[test]
fn a_box_is_told_as_a_list_or_as_a_number(rt: HostRuntime) {
    is_told_of_many::<FlatIndex, MemDisk, HostRuntime>(&rt, rt.alloc());
}

#[test]
fn a_reply_tells_what_its_call_has_changed(rt: HostRuntime) {
    tells_its_changes::<FlatIndex, MemDisk, HostRuntime>(&rt, rt.alloc());
}

#[test]
fn a_client_tells_the_place_of_its_last_answer(rt: HostRuntime) {
    tells_its_places::<FlatIndex, MemDisk, HostRuntime>(&rt, rt.alloc());
}

#[test]
fn a_client_learns_what_another_one_put(rt: HostRuntime) {
    learns_what_another_put::<FlatIndex, MemDisk, HostRuntime>(&rt, rt.alloc());
}

#[test]
fn a_client_with_several_parts_gives_them_on(rt: HostRuntime) {
    gives_parts_on::<FlatIndex, MemDisk, HostRuntime>(&rt, rt.alloc());
}
