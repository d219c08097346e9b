//! Works of a team that wait for one another. All are at a meeting before any of them ends, so they run at the same
//! time.
ghost use Rattle.std.specs.Prelude.{◌<◌, vec_len};
ghost use Rattle.store_client.specs.Caller.{Keeps};

use crate::stores::{events_of, new_store};
use disk_mem::MemDisk;
use disk_trait::LogDisk;
use flat_index::FlatIndex;
use index_layer::Index;
use sessions::Start;
use std::alloc::Global;
use std::process::Abort;
use std::rt::Clock;
use std::sync::Wait;
use std::sync::atomic::{AtomicBool, AtomicU64, Ordering};
use std::thread::{self, Threads};
use std::time::Duration;
use store_client::{Client, Work};
use zorder::Point;

const HERE: Point = Point { x: 5, y: 5 };

// How often a work at the meeting looks whether all others are there. It looks once a millisecond. So works that run
// one after another fail, and end.
const MOST_LOOKS: u32 = 5_000;

// A meeting of `wanted` works.
#[derive(Drop)]
struct Meeting {
    wanted: u64,
    come: AtomicU64,
    is_given_up: AtomicBool,
}

impl Meeting {
    fn of(wanted: u64) -> Meeting {
        Meeting {
            wanted,
            come: AtomicU64::new(0),
            is_given_up: AtomicBool::new(false),
        }
    }

    fn have_all_come(&self) -> bool {
        self.come.load(Ordering::SeqCst) >= self.wanted
    }

    // Joins the meeting, and returns whether all others joined it before any work gave up.
    fn attend<R: Clock>(&self, rt: &R) -> bool {
        self.come.fetch_add(1, Ordering::SeqCst);
        for _ in 0..MOST_LOOKS {
            if self.have_all_come() {
                return true;
            }
            if self.is_given_up.load(Ordering::SeqCst) {
                return false;
            }
            thread::sleep(rt, Duration::from_millis(1));
        }
        self.is_given_up.store(true, Ordering::SeqCst);
        false
    }
}

// A work that puts an object of its own, and then joins the meeting.
#[derive(Drop)]
struct Member<'m> {
    meeting: &'m Meeting,
    id: u64,
    has_met: bool,
}

impl<'m> Member<'m> {
    fn of(meeting: &'m Meeting, id: u64) -> Member<'m> {
        Member {
            meeting,
            id,
            has_met: false,
        }
    }
}

impl<'m, R: Wait + Clock> Work<R> for Member<'m> {
    fn work<I: Index, D: LogDisk, O: Start>(&mut self, rt: &R, client: &mut Client<'_, I, D, O>)
        ensures client { Keeps client.old client.new }
    {
        let has_put = client.put(rt, self.id, HERE, 3).is_ok();
        self.has_met = self.meeting.attend(rt) && has_put;
    }
}

// How many of a team have met.
fn met(members: &[Member<'_>]) -> usize {
    members.iter().filter(|member| member.has_met).count()
}

fn all_meet<I: Index + Send, D: LogDisk + Send, R: Threads + Wait + Clock + Sync + Abort>(
    rt: &R,
    alloc: Global,
) {
    let meeting = Meeting::of(4);
    let members = [
        Member::of(&meeting, 1),
        Member::of(&meeting, 2),
        Member::of(&meeting, 3),
        Member::of(&meeting, 4),
    ];
    let members = Vec::from_array(alloc, members).expect(rt, "no memory");
    let (store, pass) = new_store::<I, D>(rt, alloc);
    let mut client = Client::new(&store, alloc, pass, 7);
    let done = client.work_all(rt, 1, members);
    let pass = client.into_pass();
    let events = events_of(store.close(pass));
    let Ok(done) = done else {
        rt.panic("no team works")
    };
    assert_same!(rt; met(done.as_slice()), 4);
    assert_same!(rt; events, 4);
}

#[test]
fn the_works_of_a_team_run_at_once(rt: HostRuntime) {
    all_meet::<FlatIndex, MemDisk, HostRuntime>(&rt, rt.alloc());
}
