//! The texts of the faults of fences, of a follower and of a drive, and of memory that ran out.
use cell_format::Cell;
use disk_file::Reason;
use fence_watch::{AlongFault, BadFences, WatchFault};
use follower::FollowFault;
use recovery::{OpenFault, Walked};
use std::alloc::Global;
use std::fmt::Display;
use std::io::ErrorKind;
use std::process::Abort;
use zorder::Memory;

const BAD: &[(BadFences, &str)] = &[
    (BadFences::TooMany, "there are more than 256 fences"),
    (BadFences::NoBox { number: 3 }, "fence 3 is no box"),
    (
        BadFences::Twice { number: 3 },
        "fence 3 has the id of an earlier one",
    ),
    (BadFences::Memory, "out of memory"),
];

const WATCHED: &[(WatchFault, &str)] = &[
    (
        WatchFault::TooMany,
        "there would be more than 4,194,304 events",
    ),
    (WatchFault::Memory, "out of memory"),
];

const FOLLOWED: &[(FollowFault, &str)] = &[
    (
        FollowFault::Strange { cell: 3 },
        "cell 3 isn't the leader's",
    ),
    (
        FollowFault::Log {
            fault: OpenFault::TooLong { most: 16_777_216 },
        },
        "more than 16777216 cells",
    ),
    (
        FollowFault::Append { cell: 3 },
        "the drive failed at cell 3",
    ),
    (FollowFault::Disk, "the drive failed"),
    (FollowFault::Memory, "out of memory"),
];

const FAILED: &[(ErrorKind, &str)] = &[
    (ErrorKind::WouldBlock, "another open holds the file"),
    (ErrorKind::NotFound, "there is no such file or folder"),
    (
        ErrorKind::PermissionDenied,
        "the file may not be opened or changed",
    ),
    (
        ErrorKind::ReadOnlyFilesystem,
        "the file may not be opened or changed",
    ),
    (ErrorKind::StorageFull, "the disk has no space left"),
    (ErrorKind::QuotaExceeded, "the disk has no space left"),
    (ErrorKind::BrokenPipe, "the system failed"),
];

pub(crate) fn expect_text(rt: &impl Abort, alloc: Global, fault: &impl Display, text: &str) {
    let told = format!(in alloc; "{fault}").expect(rt, "it failed");
    assert_same!(rt; told.as_str(), text);
}

#[test]
fn a_fault_of_fences_tells_its_place(rt: HostRuntime) {
    for (fault, text) in BAD {
        expect_text(&rt, rt.alloc(), fault, text);
    }
}

#[test]
fn a_fault_of_a_step_tells_its_cause(rt: HostRuntime) {
    for (fault, text) in WATCHED {
        expect_text(&rt, rt.alloc(), fault, text);
    }
}

fn stopped(fault: WatchFault) -> AlongFault {
    let walked = Walked {
        at: 3,
        cell: Cell::Remove { id: 7 },
        before: None,
        after: None,
    };
    AlongFault::Watch { fault, walked }
}

#[test]
fn a_fault_along_a_log_tells_its_cause(rt: HostRuntime) {
    let told = [
        (
            stopped(WatchFault::TooMany),
            "a step wasn't made: there would be more than 4,194,304 events",
        ),
        (
            stopped(WatchFault::Memory),
            "a step wasn't made: out of memory",
        ),
        (AlongFault::Log(OpenFault::NotLog), "the file is no log"),
    ];
    for (fault, text) in &told {
        expect_text(&rt, rt.alloc(), fault, text);
    }
}

#[test]
fn a_refused_follower_tells_its_cause(rt: HostRuntime) {
    for (fault, text) in FOLLOWED {
        expect_text(&rt, rt.alloc(), fault, text);
    }
}

#[test]
fn a_failed_call_of_a_drive_tells_its_reason(rt: HostRuntime) {
    for (kind, text) in FAILED {
        expect_text(&rt, rt.alloc(), &Reason::of(*kind), text);
    }
}

#[test]
fn memory_that_ran_out_tells_so(rt: HostRuntime) {
    expect_text(&rt, rt.alloc(), &Memory, "out of memory");
}
