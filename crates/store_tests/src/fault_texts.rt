//! The texts of a refused call, a refused step of a book, an operation that is not added to a batch, a refused rotation, a
//! close that may lack records, a store that stays over its file, and a refused opening in memory or of two files.
use commit_book::{BookFault, MoveFault};
use pisrakun::NotInMemory;
use recovery::OpenFault;
use sessions::CallFault;
use std::alloc::Global;
use std::fmt::Display;
use std::process::Abort;
use store_client::NotAdded;
use store_file::{
    EitherCause, EndCause, NotRotatedOver, OpenCause, RotateCause, StayCause, SyncCause,
};

const REFUSED: &[(CallFault, &str)] = &[
    (
        CallFault::Closed { cell: 3 },
        "the append of record 3 has failed",
    ),
    (
        CallFault::Disk { cell: 3 },
        "the drive failed in the append of record 3",
    ),
    (CallFault::HistoryFull, "the history is full"),
    (CallFault::LogFull, "the log is full"),
    (CallFault::Memory { place: None }, "out of memory"),
    (CallFault::Memory { place: Some(3) }, "out of memory"),
];

const NO_STEP: &[(BookFault, &str)] = &[
    (
        BookFault::Closed { cell: 3 },
        "the append of record 3 has failed",
    ),
    (BookFault::Disk { cell: 3 }, "the drive failed at record 3"),
    (BookFault::HistoryFull, "the history is full"),
    (BookFault::LogFull, "the log is full"),
    (BookFault::Memory, "out of memory"),
    (
        BookFault::Room {
            cells: 16_000_001,
            events: 9,
        },
        "no room for a split: the log has 16000001 records, and the history has 9 entries",
    ),
    (
        BookFault::Splitting { number: 3 },
        "split 3 of the leaf is open",
    ),
    (
        BookFault::Deep,
        "the leaf's name has too few bits left for children",
    ),
    (BookFault::NoLeaf, "no leaf has the name"),
    (
        BookFault::Stale { number: 3 },
        "split 3 is no longer open, or its leaf has another base",
    ),
    (BookFault::NotOpen { number: 3 }, "split 3 is not open"),
];

const NOT_MOVED: &[(MoveFault, &str)] = &[
    (
        MoveFault::Closed { cell: 3 },
        "the append of record 3 has failed",
    ),
    (MoveFault::Splitting { number: 3 }, "split 3 is open"),
    (
        MoveFault::Ahead { begun: 3 },
        "3 splits have begun in the fresh log, more than in the book",
    ),
];

const NOT_ADDED: &[(NotAdded, &str)] = &[
    (NotAdded::TooLong, "the batch is full"),
    (NotAdded::Memory, "out of memory"),
];

const NOT_OVER_A_FILE: &[(OpenCause, &str)] = &[
    (
        OpenCause::Bucket,
        "the size of a bucket isn't from 4 to 4,096",
    ),
    (OpenCause::Attach, "the file can't be opened or made"),
    (OpenCause::Disk, "the drive failed"),
    (
        OpenCause::Log {
            fault: OpenFault::NotLog,
        },
        "the file is no log",
    ),
    (OpenCause::Memory, "out of memory"),
];

const NOT_IN_MEMORY: &[(NotInMemory, &str)] = &[
    (NotInMemory::Bucket, "a bucket has from 4 to 4,096 objects"),
    (NotInMemory::Memory, "out of memory"),
];

const NOT_OPENED: &[(EitherCause, &str)] = &[
    (
        EitherCause::Bucket,
        "the size of a bucket isn't from 4 to 4,096",
    ),
    (EitherCause::OneFile, "the two files have one name"),
    (
        EitherCause::First {
            cause: OpenCause::Attach,
        },
        "the first file: the file can't be opened or made",
    ),
    (
        EitherCause::Second {
            cause: OpenCause::Log {
                fault: OpenFault::TooLong { most: 16_777_216 },
            },
        },
        "the second file: more than 16777216 cells",
    ),
    (EitherCause::Differ, "the two files have different objects"),
    (
        EitherCause::Disk,
        "a drive failed while its log was emptied",
    ),
    (EitherCause::Memory, "out of memory"),
];

const NOT_ROTATED: &[(RotateCause, &str)] = &[
    (
        RotateCause::Closed { cell: 3 },
        "the append of record 3 has failed",
    ),
    (
        RotateCause::InUse { len: 18 },
        "the second file has 18 bytes",
    ),
    (
        RotateCause::TooLong,
        "there are too many objects and leaves for a log",
    ),
    (RotateCause::Memory, "out of memory"),
];

const NOT_SYNCED: &[(SyncCause, &str)] = &[
    (
        SyncCause::Closed { cell: 3 },
        "the append of record 3 has failed",
    ),
    (SyncCause::Disk { cell: 3 }, "the drive failed at record 3"),
    (SyncCause::HistoryFull, "the history is full"),
    (SyncCause::Memory, "out of memory"),
];

const ENDED: &[(EndCause, &str)] = &[
    (
        EndCause::Unsynced {
            cause: SyncCause::Disk { cell: 3 },
        },
        "the first file may lack changes: the drive failed at record 3",
    ),
    (
        EndCause::Refused {
            cause: RotateCause::InUse { len: 18 },
        },
        "the second file has 18 bytes",
    ),
    (EndCause::Unsure, "the second drive failed"),
    (
        EndCause::Uncleared,
        "the first drive failed while its log was emptied",
    ),
    (EndCause::Memory, "out of memory"),
];

const STAYS: &[(StayCause, &str)] = &[
    (StayCause::Splitting { number: 3 }, "split 3 is open"),
    (StayCause::HistoryFull, "the history is full"),
    (
        StayCause::Refused {
            cause: RotateCause::InUse { len: 18 },
        },
        "the second file has 18 bytes",
    ),
];

const STOPPED: &[(NotRotatedOver, &str)] = &[
    (
        NotRotatedOver::Stays {
            cause: StayCause::Splitting { number: 3 },
        },
        "split 3 is open",
    ),
    (
        NotRotatedOver::Unsynced,
        "the drive failed while the records that waited were written",
    ),
    (NotRotatedOver::SpareFailed, "the second drive failed"),
    (
        NotRotatedOver::FirstFailed,
        "the first drive failed while its log was emptied",
    ),
];

fn expect_text(rt: &impl Abort, alloc: Global, fault: &impl Display, text: &str) {
    let told = format!(in alloc; "{fault}").expect(rt, "it failed");
    assert_same!(rt; told.as_str(), text);
}

#[test]
fn a_refused_call_tells_its_cause(rt: HostRuntime) {
    for (fault, text) in REFUSED {
        expect_text(&rt, rt.alloc(), fault, text);
    }
}

#[test]
fn a_refused_step_of_a_book_tells_its_cause(rt: HostRuntime) {
    for (fault, text) in NO_STEP {
        expect_text(&rt, rt.alloc(), fault, text);
    }
}

#[test]
fn a_log_that_is_not_replaced_tells_its_cause(rt: HostRuntime) {
    for (fault, text) in NOT_MOVED {
        expect_text(&rt, rt.alloc(), fault, text);
    }
}

#[test]
fn an_operation_that_is_not_added_tells_its_cause(rt: HostRuntime) {
    for (fault, text) in NOT_ADDED {
        expect_text(&rt, rt.alloc(), fault, text);
    }
}

#[test]
fn two_files_that_are_not_opened_tell_their_cause(rt: HostRuntime) {
    for (fault, text) in NOT_OPENED {
        expect_text(&rt, rt.alloc(), fault, text);
    }
}

#[test]
fn a_refused_rotation_tells_its_cause(rt: HostRuntime) {
    for (fault, text) in NOT_ROTATED {
        expect_text(&rt, rt.alloc(), fault, text);
    }
}

#[test]
fn a_store_that_is_not_over_a_file_tells_its_cause(rt: HostRuntime) {
    for (cause, text) in NOT_OVER_A_FILE {
        expect_text(&rt, rt.alloc(), cause, text);
    }
}

#[test]
fn a_store_that_is_not_in_memory_tells_its_cause(rt: HostRuntime) {
    for (cause, text) in NOT_IN_MEMORY {
        expect_text(&rt, rt.alloc(), cause, text);
    }
}

#[test]
fn a_close_that_may_lack_records_tells_its_cause(rt: HostRuntime) {
    for (cause, text) in NOT_SYNCED {
        expect_text(&rt, rt.alloc(), cause, text);
    }
}

#[test]
fn a_store_that_is_not_rotated_tells_its_cause(rt: HostRuntime) {
    for (cause, text) in ENDED {
        expect_text(&rt, rt.alloc(), cause, text);
    }
}

#[test]
fn a_store_that_stays_over_its_file_tells_its_cause(rt: HostRuntime) {
    for (cause, text) in STAYS {
        expect_text(&rt, rt.alloc(), cause, text);
    }
    for (cause, text) in STOPPED {
        expect_text(&rt, rt.alloc(), cause, text);
    }
}
