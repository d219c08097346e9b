//! Views that threads share while other threads change the store, and views of a store whose drive fails. Each answer of
//! a view is compared with that of a plain copy of its objects.
ghost use Rattle.std.specs.Prelude.{◌≡◌, ◌<◌, IfSome, vec_len};
ghost use Rattle.zorder.specs.Region.{IsBox};
ghost use Rattle.store_client.specs.Caller.{IsFree, Keeps};

use crate::files::Open;
use crate::logs::{END, HEADER, PUT_4, failing_disk};
use crate::stores::new_store;
use disk_mem::{DiskCall, Fail, MemDisk};
use disk_trait::LogDisk;
use flat_index::FlatIndex;
use index_layer::Index;
use index_view::{View, Visit};
use plain_list::World;
use sessions::{CallFault, Start};
use std::alloc::Global;
use std::marker::Brand;
use std::process::Abort;
use std::sync::Wait;
use std::thread::Threads;
use store_client::{Client, PutReply, Work};
use store_file::{OpenedStore, close_store, open_store};
use zorder::{Memory, Placed, Point, Region};

// The objects of a view as a plain list, in the order of ids.
#[derive(Drop)]
struct Plain {
    alloc: Global,
    objects: Vec<Placed>,
}

impl Plain {
    fn of(alloc: Global, world: &World) -> Result<Plain, Memory> {
        let objects = world.as_slice().iter().map(|member| Placed {
            id: member.id,
            at: member.at,
        });
        Ok(Plain {
            alloc,
            objects: objects.collect(alloc)?,
        })
    }

    fn within(&self, region: &Region) -> Result<Vec<Placed>, Memory> {
        let all = self.objects.iter().copied();
        Ok(
            all.filter(|object| region.has(object.at))
                .collect(self.alloc)?,
        )
    }

    // All objects, the nearest first, and at the same distance in the order of ids.
    fn ranked(&self, from: Point) -> Result<Vec<Placed>, Memory> {
        let mut all = Vec::from_slice(self.alloc, self.objects.as_slice())?;
        all.sort_by_key(|object| (distance(object.at, from), object.id))?;
        Ok(all)
    }
}

// The squared distance of points whose coordinates are small.
fn distance(one: Point, two: Point) -> u64 {
    let (x, y) = (one.x.abs_diff(two.x), one.y.abs_diff(two.y));
    let square = u64::from(x).saturating_mul(u64::from(x));
    square.saturating_add(u64::from(y).saturating_mul(u64::from(y)))
}

// A visitor that counts objects and adds up their ids.
#[derive(Clone, Copy, Debug, PartialEq, Eq)]
struct Tally {
    count: u64,
    ids: u64,
}

const NONE: Tally = Tally { count: 0, ids: 0 };

impl Visit for Tally {
    fn visit(&mut self, object: Placed) {
        self.count = self.count.saturating_add(1);
        self.ids = self.ids.wrapping_add(object.id);
    }
}

fn tally_of(objects: &[Placed]) -> Tally {
    let mut tally = NONE;
    for object in objects {
        tally.visit(*object);
    }
    tally
}

// Whether a view answers about a box as the plain list does.
fn has_box<I: Index>(
    alloc: Global,
    view: &View<I>,
    plain: &Plain,
    region: &Region,
) -> Result<bool, Memory>
    requires { IsBox region.now }
{
    let wanted = plain.within(region)?;
    let listed = view.within(alloc, region)?;
    let mut visited = NONE;
    view.for_each_in(region, &mut visited);
    Ok(
        listed.as_slice() == wanted.as_slice()
            && view.count(region) == wanted.len() as u64
            && visited == tally_of(wanted.as_slice()),
    )
}

// Whether a browse gives all these objects, and no more.
fn is_browsed<I: Index>(
    alloc: Global,
    view: &View<I>,
    from: Point,
    ranked: &[Placed],
) -> Result<bool, Memory> {
    let mut browse = view.browse(alloc, from);
    for object in ranked {
        if browse.next()? != Some(*object) {
            return Ok(false);
        }
    }
    Ok(browse.next()?.is_none())
}

// Whether a view ranks the objects as the plain list does.
fn has_ranking<I: Index>(
    alloc: Global,
    view: &View<I>,
    plain: &Plain,
    from: Point,
) -> Result<bool, Memory> {
    let ranked = plain.ranked(from)?;
    let nearest = view.nearest(alloc, from, 5)?;
    let first = ranked.len().min(5);
    let has_nearest = nearest.as_slice() == &ranked[..first];
    Ok(has_nearest && is_browsed(alloc, view, from, ranked.as_slice())?)
}

// A point that a number determines, with coordinates below 64.
fn point_of(number: u32) -> Point {
    let mixed = number.wrapping_mul(2_654_435_769);
    Point {
        x: mixed >> 26,
        y: (mixed >> 20) % 64,
    }
}

fn box_at(lo: Point, side: u32) -> Region
    ensures { IsBox result }
{
    Region {
        lo,
        hi: Point {
            x: lo.x.saturating_add(side),
            y: lo.y.saturating_add(side),
        },
    }
}

// How many points and boxes are tried.
const ROUNDS: u32 = 24;

// In how many rounds a view answers as the plain list does.
fn right_rounds<I: Index>(alloc: Global, view: &View<I>, plain: &Plain) -> u32 {
    let mut right = 0u32;
    for round in 0..ROUNDS {
        if is_right(alloc, view, plain, round) == Ok(true) {
            right = right.saturating_add(1);
        }
    }
    right
}

fn is_right<I: Index>(
    alloc: Global,
    view: &View<I>,
    plain: &Plain,
    round: u32,
) -> Result<bool, Memory> {
    let at = point_of(round);
    let has_len = view.len() == plain.objects.len() as u64;
    Ok(
        has_len
            && has_box(alloc, view, plain, &box_at(at, round))?
            && has_ranking(alloc, view, plain, at)?,
    )
}

// A member of a team: it reads a view that others read too, or it changes the store.
#[derive(Drop)]
struct Member<'v, J: Index> {
    view: &'v View<J>,
    plain: &'v Plain,
    writes: bool,
    number: u32,
    // In how many rounds the view was right, or how many changes were made.
    done: u32,
}

// How many changes a thread makes of each kind.
const CHANGES: u32 = 30;

impl<'v, J: Index> Member<'v, J> {
    fn new(view: &'v View<J>, plain: &'v Plain, writes: bool, number: u32) -> Member<'v, J> {
        Member {
            view,
            plain,
            writes,
            number,
            done: 0,
        }
    }

    // Moves an object that was there, and puts and removes one that is this thread's own.
    fn change<I: Index, D: LogDisk, O: Start, R: Wait>(
        &mut self,
        rt: &R,
        client: &mut Client<'_, I, D, O>,
        round: u32,
    ) -> Result<(), CallFault>
        ensures { Keeps client.old client.new }
    {
        let at = point_of(round.wrapping_mul(31).wrapping_add(self.number));
        let own = 1_000u64.saturating_add(u64::from(self.number));
        client.report(rt, u64::from(round), at, 1)?;
        client.put(rt, own, at, 1)?;
        client.remove(rt, own)?;
        self.done = self.done.saturating_add(1);
        Ok(())
    }
}

impl<'v, J: Index, R: Wait + AllocGlobal> Work<R> for Member<'v, J> {
    fn work<I: Index, D: LogDisk, O: Start>(&mut self, rt: &R, client: &mut Client<'_, I, D, O>)
        ensures client { Keeps client.old client.new }
    {
        if !self.writes {
            self.done = right_rounds(rt.alloc(), self.view, self.plain);
            return;
        }
        for round in 0..CHANGES {
            let _ = self.change(rt, client, round);
        }
    }
}

// Two that read and four that write.
fn team<'v, J: Index>(
    alloc: Global,
    view: &'v View<J>,
    plain: &'v Plain,
) -> Option<Vec<Member<'v, J>>>
    ensures { IfSome result (λ team. vec_len team ≡ 6) }
{
    let team = [
        Member::new(view, plain, false, 0),
        Member::new(view, plain, false, 1),
        Member::new(view, plain, true, 2),
        Member::new(view, plain, true, 3),
        Member::new(view, plain, true, 4),
        Member::new(view, plain, true, 5),
    ];
    Vec::from_array(alloc, team).ok()
}

// How many objects there are when the view is taken.
const OBJECTS: u32 = 60;

fn fill<I: Index, D: LogDisk, R: Wait>(rt: &R, client: &mut Client<'_, I, D, Brand>)
    ensures { Keeps client.old client.new }
{
    for id in 0..OBJECTS {
        let _ = client.put(rt, u64::from(id), point_of(id), 0);
    }
}

// What is seen in a view by threads: what each did, and in how many rounds the view is right after all threads ended.
#[derive(Drop)]
struct Seen {
    done: Vec<u32>,
    at_last: u32,
    is_changed: bool,
}

fn see<I: Index + Send + Sync, D: LogDisk + Send, R: Threads + Wait + AllocGlobal + Sync>(
    rt: &R,
    client: &mut Client<'_, I, D, Brand>,
) -> Option<Seen>
    requires { 6 < client.old.pass.parts }
    ensures { Keeps client.old client.new }
{
    let alloc = rt.alloc();
    fill(rt, client);
    let view = client.view(rt).ok()?;
    let world = client.world(rt).ok()?;
    let plain = Plain::of(alloc, &world).ok()?;
    let team = client.work_all(rt, 0, team(alloc, &view, &plain)?).ok()?;
    let now = client.world(rt).ok()?;
    Some(Seen {
        done: team.iter().map(|member| member.done).collect(alloc).ok()?,
        at_last: right_rounds(alloc, &view, &plain),
        is_changed: now.as_slice() != world.as_slice(),
    })
}

fn shares_a_view<
    I: Index + Send + Sync,
    D: LogDisk + Send,
    R: Threads + Wait + AllocGlobal + Sync + Abort,
>(rt: &R) {
    let alloc = rt.alloc();
    let (store, pass) = new_store::<I, D>(rt, alloc);
    let mut client = Client::new(&store, alloc, pass, 7);
    let seen = see(rt, &mut client);
    let pass = client.into_pass();
    store.close(pass);
    let seen = seen.expect(rt, "no memory");
    let (read, made) = (ROUNDS, CHANGES);
    assert_same!(rt; seen.done.as_slice(), [read, read, made, made, made, made].as_slice());
    assert_same!(rt; (seen.at_last, seen.is_changed), (read, true));
}

#[test]
fn two_threads_read_one_view_while_four_change_the_store(rt: HostRuntime) {
    shares_a_view::<FlatIndex, MemDisk, HostRuntime>(&rt);
}

const ONE: Placed = Placed {
    id: 1,
    at: Point { x: 3, y: 5 },
};

const FOUR: Placed = Placed {
    id: 4,
    at: Point { x: 7, y: 7 },
};

fn open<I: Index, D: LogDisk>(rt: &impl Abort, alloc: Global, disk: D) -> Open<I, D>
    ensures free { IsFree result.0 result.1 }
    ensures parts { result.1.parts ≡ 65536 }
{
    let Ok(opened) = open_store::<I, D>(alloc, disk, "a.log", 4) else {
        rt.panic("no store is opened")
    };
    let OpenedStore {
        store,
        pass,
        points: _,
        latest: _,
        records: _,
    } = opened;
    (store, pass)
}

// A view before a put that the drive loses, how that put and the next one end, and a view after both.
#[derive(Drop)]
struct Kept<I: Index> {
    before: View<I>,
    lost: Result<PutReply, CallFault>,
    refused: Result<PutReply, CallFault>,
    after: View<I>,
}

fn lose_a_put<I: Index, D: LogDisk, O: Start, R: Wait>(
    rt: &R,
    client: &mut Client<'_, I, D, O>,
) -> Option<Kept<I>>
    ensures { Keeps client.old client.new }
{
    client.put(rt, ONE.id, ONE.at, 10).ok()?;
    let before = client.view(rt).ok()?;
    let lost = client.put(rt, 2, Point { x: 4, y: 4 }, 20);
    let refused = client.put(rt, 3, Point { x: 4, y: 4 }, 20);
    Some(Kept {
        before,
        lost,
        refused,
        after: client.view(rt).ok()?,
    })
}

// The same over a log of the put of 4, on a drive of which one call fails. The store is closed at the end.
fn kept_from<I: Index, D: LogDisk, R: Wait + Abort>(
    rt: &R,
    alloc: Global,
    disk: D,
) -> Option<Kept<I>> {
    let (store, pass) = open::<I, D>(rt, alloc, disk);
    let mut client = Client::new(&store, alloc, pass, 7);
    let kept = lose_a_put(rt, &mut client);
    let pass = client.into_pass();
    close_store(store, pass);
    kept
}

fn plain_two(alloc: Global) -> Result<Plain, Memory> {
    let objects = Vec::from_array(alloc, [ONE, FOUR])?;
    Ok(Plain { alloc, objects })
}

fn outlives_its_drive<R: Wait + Abort>(rt: &R, alloc: Global, failing: Fail) {
    let disk = failing_disk(rt, alloc, &[HEADER, PUT_4, END], &[failing]);
    let kept = kept_from::<FlatIndex, MemDisk, R>(rt, alloc, disk).expect(rt, "no memory");
    let plain = plain_two(alloc).ok().expect(rt, "no memory");
    assert_same!(rt; kept.lost, Err(CallFault::Disk { cell: 2 }));
    assert_same!(rt; kept.refused, Err(CallFault::Closed { cell: 2 }));
    assert_same!(rt; (kept.before.place(), kept.after.place()), (1, 1));
    assert_same!(rt; right_rounds(alloc, &kept.before, &plain), ROUNDS);
    assert_same!(rt; right_rounds(alloc, &kept.after, &plain), ROUNDS);
}

// An opening syncs once. The first append writes, syncs, writes and syncs, and so does the second one, which fails.
const CALLS: &[(DiskCall, u64)] = &[
    (DiskCall::Write, 3),
    (DiskCall::Sync, 4),
    (DiskCall::Write, 4),
    (DiskCall::Sync, 5),
];

#[test]
fn a_view_answers_after_the_drive_has_failed_and_the_store_is_closed(rt: HostRuntime) {
    for (call, number) in CALLS {
        let failing = Fail {
            call: *call,
            number: *number,
        };
        outlives_its_drive(&rt, rt.alloc(), failing);
    }
}
