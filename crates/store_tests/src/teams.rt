//! Teams of a client: any number of works at the same time, in order. Each work has a thread and a session of its own.
ghost use Rattle.std.specs.Prelude.{◌<◌, vec_len};
ghost use Rattle.store_client.specs.Caller.{Keeps};

use crate::stores::new_store;
use disk_mem::MemDisk;
use disk_trait::LogDisk;
use flat_index::FlatIndex;
use index_layer::Index;
use plain_list::{Entries, Entry, Op};
use sessions::Start;
use std::alloc::Global;
use std::process::Abort;
use std::sync::Wait;
use std::thread::Threads;
use store_client::{Client, PutReply, Work};
use zorder::Point;

// A work that puts an object of its own.
#[derive(Clone, Copy)]
struct Putter {
    id: u64,
    told: Option<PutReply>,
    place: u64,
}

const HERE: Point = Point { x: 5, y: 5 };

// The work that puts this object.
fn who_puts(id: u64) -> Putter {
    Putter {
        id,
        told: None,
        place: 0,
    }
}

impl<R: Wait> Work<R> for Putter {
    fn work<I: Index, D: LogDisk, O: Start>(&mut self, rt: &R, client: &mut Client<'_, I, D, O>)
        ensures client { Keeps client.old client.new }
    {
        self.told = client.put(rt, self.id, HERE, 3).ok();
        self.place = client.place();
    }
}

// The session of the first of a team. Those after the next one count from 0.
const FIRST: u8 = 254;

// What a team has done, and the history.
fn played<I: Index + Send, D: LogDisk + Send, R: Threads + Wait + Sync + Abort>(
    rt: &R,
    alloc: Global,
    putters: Vec<Putter>,
) -> (Vec<Putter>, Entries)
    requires { vec_len putters < 65536 }
{
    let (store, pass) = new_store::<I, D>(rt, alloc);
    let mut client = Client::new(&store, alloc, pass, 7);
    let done = client.work_all(rt, FIRST, putters);
    let pass = client.into_pass();
    let entries = store.close(pass).into_parts().entries;
    match done {
        Ok(done) => (done, entries),
        Err(_) => rt.panic("no team works"),
    }
}

// The session that has put an object.
fn session_of(entries: &[Entry], object: u64) -> Option<u8> {
    for entry in entries {
        if let Entry::Call {
            session,
            row: _,
            op: Op::Put { id, .. },
        } = entry
            && *id == object
        {
            return Some(*session);
        }
    }
    None
}

// Whether a team put these objects, in this order, each in this session.
fn has_put(done: &[Putter], entries: &[Entry], wanted: &[(u64, u8)]) -> bool {
    done.len() == wanted.len()
        && done.iter().zip(wanted.iter()).all(|(putter, (id, session))| {
            putter.id == *id
                && putter.told == Some(PutReply::Done)
                && session_of(entries, *id) == Some(*session)
        })
}

// The sum of the places of their calls.
fn sum_of_places(done: &[Putter]) -> u64 {
    done.iter()
        .fold(0, |sum, putter| putter.place.saturating_add(sum))
}

fn calls(entries: &[Entry]) -> usize {
    let entries = entries.iter();
    entries
        .filter(|entry| matches!(entry, Entry::Call { .. }))
        .count()
}

// If a team makes n calls, their places are 1 to n.
fn works_all<R: Threads + Wait + Sync + Abort>(
    rt: &R,
    alloc: Global,
    putters: Vec<Putter>,
    wanted: &[(u64, u8)],
    places: u64,
)
    requires { vec_len putters < 65536 }
{
    let (done, entries) = played::<FlatIndex, MemDisk, R>(rt, alloc, putters);
    assert_is!(rt; has_put(done.as_slice(), entries.as_slice(), wanted));
    assert_same!(rt; sum_of_places(done.as_slice()), places);
    assert_same!(rt; calls(entries.as_slice()), wanted.len());
}

// More than there are sessions, so that two have the same one.
const CROWD: usize = 300;

// The objects from 11 on, and their sessions from the first on.
fn crowd() -> ([Putter; CROWD], [(u64, u8); CROWD]) {
    let mut putters = [who_puts(0); CROWD];
    let mut wanted = [(0, 0); CROWD];
    for i in 0..CROWD {
        let id = 11 + i as u64;
        putters[i] = who_puts(id);
        wanted[i] = (id, FIRST.wrapping_add((i % 256) as u8));
    }
    (putters, wanted)
}

const SIX: [(u64, u8); 6] = [(11, 254), (12, 255), (13, 0), (14, 1), (15, 2), (16, 3)];

#[test]
fn a_team_of_six_has_a_session_for_each(rt: HostRuntime) {
    let alloc = rt.alloc();
    let putters = [
        who_puts(11),
        who_puts(12),
        who_puts(13),
        who_puts(14),
        who_puts(15),
        who_puts(16),
    ];
    let putters = Vec::from_array(alloc, putters).expect(&rt, "no memory");
    works_all(&rt, alloc, putters, SIX.as_slice(), 21);
}

#[test]
fn a_team_of_one_has_the_first_session(rt: HostRuntime) {
    let alloc = rt.alloc();
    let putters = Vec::from_array(alloc, [who_puts(11)]).expect(&rt, "no memory");
    works_all(&rt, alloc, putters, &[(11, 254)], 1);
}

#[test]
fn a_team_of_none_asks_nothing(rt: HostRuntime) {
    let alloc = rt.alloc();
    works_all(&rt, alloc, Vec::new(alloc), &[], 0);
}

#[test]
fn a_team_of_300_puts_as_many_objects(rt: HostRuntime) {
    let alloc = rt.alloc();
    let (putters, wanted) = crowd();
    let putters = Vec::from_array(alloc, putters).expect(&rt, "no memory");
    works_all(&rt, alloc, putters, wanted.as_slice(), 45_150);
}
