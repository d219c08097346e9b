//! What is printed of a log that wasn't created, opened or compacted.
use crate::fault_texts::expect_text;
use cell_format::Cause;
use log_compact::CompactFault;
use recovery::{InitFault, OpenFault};

const NOT_MADE: &[(InitFault, &str)] = &[
    (InitFault::InUse { len: 18 }, "the file has 18 bytes"),
    (InitFault::Disk, "the drive failed"),
];

const NOT_OPENED: &[(OpenFault, &str)] = &[
    (OpenFault::NotLog, "the file is no log"),
    (
        OpenFault::OldLog {
            version: 3,
            width: 2,
        },
        "the log has version 3 and width 2",
    ),
    (
        OpenFault::Damaged {
            cell: 7,
            cause: Cause::Kind,
        },
        "cell 7 is damaged",
    ),
    (OpenFault::Disk, "the drive failed"),
    (OpenFault::Memory, "out of memory"),
    (OpenFault::TooLong { most: 4 }, "more than 4 cells"),
];

const NOT_COMPACTED: &[(CompactFault, &str)] = &[
    (CompactFault::InUse { len: 18 }, "the file has 18 bytes"),
    (CompactFault::Disk, "the drive failed"),
];

#[test]
fn a_log_that_is_not_made_says_why(rt: HostRuntime) {
    for (fault, text) in NOT_MADE {
        expect_text(&rt, rt.alloc(), fault, text);
    }
}

#[test]
fn a_log_that_is_not_opened_says_why(rt: HostRuntime) {
    for (fault, text) in NOT_OPENED {
        expect_text(&rt, rt.alloc(), fault, text);
    }
}

#[test]
fn a_log_that_is_not_compacted_says_why(rt: HostRuntime) {
    for (fault, text) in NOT_COMPACTED {
        expect_text(&rt, rt.alloc(), fault, text);
    }
}
