//! A follower that continues when its leader's log has grown.
use crate::logs::fixtures::{AT, PUT_7, log_of};
use crate::memory::disk_of;
use cell_format::Cell;
use disk_mem::MemDisk;
use disk_trait::LogDisk;
use follower::{Follower, Report, Turn, Turned};
use std::alloc::Global;
use std::process::Abort;

const PUT_8: Cell = Cell::Put {
    id: 8,
    at: AT,
    moment: 11,
};

// The report of a follower that receives the next cell of the leader, how much was sent each way, and its drive.
fn follow_on<D: LogDisk>(alloc: Global, disk: D) -> Option<(Report, [usize; 2], D)> {
    let cells = [PUT_7];
    let Ok(follower) = Follower::open(alloc, disk, &cells, 1) else {
        return None;
    };
    let grown = [PUT_7, PUT_8, Cell::Remove { id: 7 }];
    follower.goes_on(&grown);
    let sent = follower.turn(&grown, &Turn::Send { cell: 1 }).ok()?;
    let came = sent
        .follower
        .turn(&grown, &Turn::Arrive { packet: 1 })
        .ok()?;
    let Turned { follower, report } = came;
    let sent = [follower.packets(), follower.acks()];
    Some((report, sent, follower.give_back()))
}

fn expect_follows(rt: &impl Abort, alloc: Global) {
    let held = log_of(rt, alloc, &[PUT_7], b"\0");
    let disk = disk_of(rt, alloc, held.as_slice(), &[]);
    let (report, sent, disk) = follow_on::<MemDisk>(alloc, disk).expect(rt, "it doesn't follow");
    let wanted = log_of(rt, alloc, &[PUT_7, PUT_8], b"\0");
    assert_same!(rt; report, Report { held: 2, known: 0 });
    assert_same!(rt; sent, [1, 1]);
    assert_same!(rt; disk.bytes(), wanted.as_slice());
}

#[test]
fn a_follower_goes_on_beside_a_leader_that_has_grown(rt: HostRuntime) {
    expect_follows(&rt, rt.alloc());
}
