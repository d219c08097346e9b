//! The commands over a log, with worked files and faults of the drive and the sink. The source fails at once.
use crate::checks::{CHECK, Case, EMPTY, INIT, NO_LOG, each_is_left};
use crate::memory::{EMPTY_LOG, PUT_LOG};
use disk_mem::{DiskCall, Fail};

const ATTACH: &[Fail] = &[Fail {
    call: DiskCall::Attach,
    number: 1,
}];

const INITS: Case<'static> = Case {
    input: "",
    reads: &[1],
    ..INIT
};

const SHORT: &[u8] = b"MDLOCLOG\x02\x01\0\0\0\0\0\0\x01";

const MADE: &[Case<'static>] = &[
    Case {
        name: "init of an empty file",
        file: Some(&[]),
        ..INITS
    },
    Case {
        name: "init of a file of 17 bytes",
        file: Some(SHORT),
        ..INITS
    },
    Case {
        name: "init of a file of 49 bytes",
        file: Some(&[7; 49]),
        status: 10,
        text: "refused in use 49\n",
        held: &[7; 49],
        ..INITS
    },
    Case {
        name: "init of a drive that can't be attached",
        calls: ATTACH,
        status: 7,
        text: "refused disk\n",
        ..INITS
    },
    Case {
        name: "init with a sink that fails",
        puts: &[1],
        status: 6,
        text: "",
        ..INITS
    },
];

#[test]
fn init_makes_a_log_of_no_cells(rt: HostRuntime) {
    each_is_left(&rt, rt.alloc(), MADE);
}

const CHECKS: Case<'static> = Case {
    input: "",
    reads: &[1],
    ..CHECK
};

const DAMAGED: Case<'static> = Case {
    status: 4,
    ..CHECKS
};

const BAD_KIND: &[u8] = b"MDLOCLOG\x02\x01\0\0\0\0\0\0\
    \x01\x09\0\0\0\0\0\0\0\x07\0\0\0\0\0\0\0\0\0\0\0\0\0\0\0\0\0\0\0\0\0\0\
    \0";

const UNINSTALLED: &[u8] = b"MDLOCLOG\x02\x01\0\0\0\0\0\0\
    \x01\x05\0\0\0\0\0\0\0\x01\0\0\0\0\0\0\0\0\0\0\0\0\0\0\0\0\0\0\0\0\0\0\
    \0";

const OTHER: &[u8] = b"MDLOCLOG\x03\x01\0\0\0\0\0\0\0";

const HEADER_ALONE: &[u8] = b"MDLOCLOG\x02\x01\0\0\0\0\0\0";

const CHECKED: &[Case<'static>] = &[
    Case {
        name: "check of no cells",
        ..CHECKS
    },
    Case {
        name: "check of a put",
        file: Some(PUT_LOG),
        text: "cells 1\npoints 1\nleaves 1\nunfinished 0\n",
        held: PUT_LOG,
        ..CHECKS
    },
    Case {
        name: "check of a kind that isn't there",
        file: Some(BAD_KIND),
        text: "refused cell 0 kind\n",
        held: BAD_KIND,
        ..DAMAGED
    },
    Case {
        name: "check of an install without a begin",
        file: Some(UNINSTALLED),
        text: "refused cell 0 impossible\n",
        held: UNINSTALLED,
        ..DAMAGED
    },
    Case {
        name: "check of a set commit byte alone",
        file: Some(SHORT),
        text: "refused cell 0 short\n",
        held: SHORT,
        ..DAMAGED
    },
    Case {
        name: "check of another version",
        file: Some(OTHER),
        text: "refused log version 3 width 1\n",
        held: OTHER,
        ..DAMAGED
    },
    Case {
        name: "check of a header alone",
        file: Some(HEADER_ALONE),
        text: "refused not a log\n",
        held: HEADER_ALONE,
        ..DAMAGED
    },
    Case {
        name: "check of a drive that can't be attached",
        calls: ATTACH,
        status: 7,
        text: "refused disk\n",
        ..CHECKS
    },
    Case {
        name: "check with a sink that fails",
        puts: &[1],
        status: 6,
        text: "",
        ..CHECKS
    },
];

#[test]
fn check_tells_four_lines_or_what_is_wrong(rt: HostRuntime) {
    each_is_left(&rt, rt.alloc(), CHECKED);
}

const ATTACHES: &[Case<'static>] = &[
    Case {
        name: "init of a",
        words: &["init", "a"],
        attaches: "makes a\n",
        ..INIT
    },
    Case {
        name: "check of a",
        words: &["check", "a"],
        attaches: "opens a\n",
        ..CHECK
    },
    Case {
        name: "play over a",
        words: &["play", "a"],
        attaches: "opens a\n",
        ..EMPTY
    },
    Case {
        name: "play over no log beside a file",
        file: Some(EMPTY_LOG),
        held: EMPTY_LOG,
        ..NO_LOG
    },
];

#[test]
fn a_command_over_a_log_attaches_its_file_once(rt: HostRuntime) {
    each_is_left(&rt, rt.alloc(), ATTACHES);
}

// A log of version 1, of put 7 at (3,5) and move 7 to (4,5).
const LOG_OF_1: &[u8] = b"MDLOCLOG\x01\x01\0\0\0\0\0\0\
    \x01\x01\0\0\0\0\0\0\0\x07\0\0\0\x03\0\0\0\x05\0\0\0\0\0\0\0\0\0\0\0\0\0\0\
    \x01\x02\0\0\0\0\0\0\0\x07\0\0\0\x04\0\0\0\x05\0\0\0\0\0\0\0\0\0\0\0\0\0\0\
    \0";

const OVER_1: Case<'static> = Case {
    input: rows!("1,where,7,,,,,\n"),
    file: Some(LOG_OF_1),
    held: LOG_OF_1,
    ..EMPTY
};

const NOT_OPENED: Case<'static> = Case {
    status: 4,
    text: "refused log version 1 width 1\n",
    ..OVER_1
};

const EACH_COMMAND: &[Case<'static>] = &[
    Case {
        name: "check of version 1",
        words: &["check", "log"],
        text: "cells 2\npoints 1\nleaves 1\nunfinished 0\n",
        ..OVER_1
    },
    Case {
        name: "show of version 1",
        words: &["show", "log", "0", "0", "9", "9"],
        text: "id,x,y,moment\n7,4,5,0\n",
        ..OVER_1
    },
    Case {
        name: "init of version 1",
        words: &["init", "log"],
        status: 10,
        text: "refused in use 81\n",
        attaches: "makes log\n",
        ..OVER_1
    },
    Case {
        name: "play over version 1",
        ..NOT_OPENED
    },
    Case {
        name: "trial over version 1",
        words: &["trial", "log", "1", "2"],
        ..NOT_OPENED
    },
];

#[test]
fn a_log_of_version_1_is_read_and_not_played_over(rt: HostRuntime) {
    each_is_left(&rt, rt.alloc(), EACH_COMMAND);
}
