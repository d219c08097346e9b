//! Commands in sequence. Each runs over the drives that the one before returned, or over what a crash in it left of one
//! of them.
use crate::checks::holds;
use crate::memory::{Left, Plan, held_disk, run_drives};
use disk_mem::MemDisk;
use io_edge::OpenGate;
use std::alloc::Global;
use std::process::Abort;
use std::sync::Wait;
use std::thread::Threads;

// What the next command runs over. A crash came a number of device calls before the end of this one, and the drive
// holds what it left.
#[derive(Clone, Copy)]
enum Next {
    Both,
    CrashOfFirst(u64),
    CrashOfSecond(u64),
    SecondAsFirst,
}

// A command, what it writes with status 0, and what follows it.
#[derive(Clone, Copy)]
struct Link<'a> {
    name: &'a str,
    words: &'a [&'a str],
    input: &'a str,
    text: &'a str,
    next: Next,
}

const LINK: Link<'static> = Link {
    name: "init",
    words: &["init", "log"],
    input: "",
    text: "made\n",
    next: Next::Both,
};

// A log loses a record, continues, and is written as a fresh log. The fresh log continues and is copied, and its copy
// continues.
const LOG_TO_COPY: &[Link<'static>] = &[
    LINK,
    Link {
        name: "a play, whose third record a crash takes",
        words: &["play", "log"],
        input: rows!("1,put,7,3,5,,,10\n1,put,8,4,6,,,11\n1,move,7,4,5,,,12\n"),
        text: lines!("1,1,done,\n2,2,done,\n3,3,moved,3:5:10\n"),
        next: Next::CrashOfFirst(3),
    },
    Link {
        name: "a play over what the crash left",
        words: &["play", "log"],
        input: rows!("1,where,7,,,,,\n1,move,7,9,9,,,11\n1,drop,8,,,,,\n"),
        text: lines!("1,1,at,3:5:10\n2,2,moved,3:5:10\n3,3,gone,4:6:11\n"),
        next: Next::CrashOfFirst(0),
    },
    Link {
        name: "check of four records",
        words: &["check", "log"],
        text: "cells 4\npoints 1\nleaves 1\nunfinished 0\n",
        ..LINK
    },
    Link {
        name: "show of the one that is left",
        words: &["show", "log", "0", "0", "9", "9"],
        text: "id,x,y,moment\n7,9,9,11\n",
        ..LINK
    },
    Link {
        name: "watch of a fence that it was in",
        words: &["watch", "log"],
        input: "fence,x,y,a,b\n1,0,0,5,5\n",
        text: "cell,event,id,fence\n0,enter,7,1\n2,leave,7,1\nend,inside,0,1\n",
        ..LINK
    },
    Link {
        name: "compact",
        words: &["compact", "log", "new"],
        text: "compacted 1\n",
        next: Next::SecondAsFirst,
        ..LINK
    },
    Link {
        name: "a play over what was written anew",
        words: &["play", "new"],
        input: rows!("1,put,9,1,1,,,5\n1,near,,0,0,2,,\n"),
        text: lines!("1,1,done,\n2,2,found,9:1:1;7:9:9\n"),
        ..LINK
    },
    Link {
        name: "follow, whose second record a crash takes",
        words: &["follow", "new", "twin"],
        input: "turn,number\nsend,0\nsend,1\narrive,1\narrive,2\nack,2\n",
        text: "turn,held,known\n1,0,0\n2,0,0\n3,1,0\n4,2,0\n5,2,2\n",
        next: Next::CrashOfSecond(3),
    },
    Link {
        name: "follow from what the crash left on",
        words: &["follow", "new", "twin"],
        input: "turn,number\nrestart,\nsend,1\narrive,1\nack,1\n",
        text: "turn,held,known\n1,1,0\n2,1,0\n3,2,0\n4,2,2\n",
        next: Next::SecondAsFirst,
    },
    Link {
        name: "a play over the copy",
        words: &["play", "twin"],
        input: rows!("1,where,9,,,,,\n1,where,7,,,,,\n"),
        text: lines!("1,1,at,1:1:5\n2,2,at,9:9:11\n"),
        ..LINK
    },
    Link {
        name: "trial of one put behind both",
        words: &["trial", "twin", "1", "2"],
        text: "rows 1\npoints 3\nsum 17116200679316071400\n",
        next: Next::CrashOfFirst(0),
        ..LINK
    },
    Link {
        name: "check of the copy",
        words: &["check", "twin"],
        text: "cells 3\npoints 3\nleaves 1\nunfinished 0\n",
        ..LINK
    },
];

// A log is created again after a crash, and so is a fresh log. Then both grow.
const MADE_AGAIN: &[Link<'static>] = &[
    Link {
        name: "init, which a crash comes in",
        words: &["init", "log", "--quad"],
        next: Next::CrashOfFirst(1),
        ..LINK
    },
    Link {
        name: "init over what the crash left",
        words: &["init", "log", "--quad"],
        next: Next::CrashOfFirst(0),
        ..LINK
    },
    Link {
        name: "a play of one put",
        words: &["play", "log"],
        input: rows!("1,put,7,3,5,,,10\n"),
        text: lines!("1,1,done,\n"),
        next: Next::CrashOfFirst(0),
    },
    Link {
        name: "compact, which a crash comes in",
        words: &["compact", "log", "new"],
        text: "compacted 1\n",
        next: Next::CrashOfSecond(5),
        ..LINK
    },
    Link {
        name: "compact over what the crash left",
        words: &["compact", "log", "new"],
        text: "compacted 1\n",
        next: Next::CrashOfSecond(0),
        ..LINK
    },
    Link {
        name: "follow in what was written anew",
        words: &["follow", "log", "new"],
        input: "turn,number\nrestart,\n",
        text: "turn,held,known\n1,1,0\n",
        ..LINK
    },
    Link {
        name: "a play that takes the point out",
        words: &["play", "log"],
        input: rows!("1,drop,7,,,,,\n"),
        text: lines!("1,1,gone,3:5:10\n"),
        ..LINK
    },
    Link {
        name: "follow of what is new",
        words: &["follow", "log", "new"],
        input: "turn,number\nsend,1\narrive,1\nack,1\n",
        text: "turn,held,known\n1,1,0\n2,2,0\n3,2,2\n",
        next: Next::SecondAsFirst,
    },
    Link {
        name: "check of the copy of both records",
        words: &["check", "new"],
        text: "cells 2\npoints 0\nleaves 1\nunfinished 0\n",
        ..LINK
    },
];

// What a crash leaves: the image whose length is nearest to this one, with this value in each free byte.
#[derive(Clone, Copy)]
struct Crash {
    len: u64,
    fill: u8,
}

fn empty_disk<R: Abort>(rt: &R, alloc: Global) -> MemDisk {
    held_disk(alloc, &[], &[]).expect(rt, "it failed")
}

// A drive that holds what a crash left of this one, `calls` calls ago.
fn crashed<R: Abort>(rt: &R, alloc: Global, disk: &MemDisk, calls: u64, crash: Crash) -> MemDisk {
    let moment = disk.moments().saturating_sub(calls);
    let image = disk
        .pick(moment, crash.len, &[crash.fill])
        .expect(rt, "it failed");
    held_disk(alloc, image.as_slice(), &[]).expect(rt, "it failed")
}

// The drives of the next command.
#[derive(Drop)]
struct Ends {
    first: MemDisk,
    second: MemDisk,
}

fn next_of<R: Abort>(rt: &R, alloc: Global, left: Left, next: Next, crash: Crash) -> Ends {
    let Left { disk, other, .. } = left;
    match next {
        Next::Both => Ends {
            first: disk,
            second: other,
        },
        Next::CrashOfFirst(calls) => Ends {
            first: crashed(rt, alloc, &disk, calls, crash),
            second: other,
        },
        Next::CrashOfSecond(calls) => Ends {
            first: disk,
            second: crashed(rt, alloc, &other, calls, crash),
        },
        Next::SecondAsFirst => Ends {
            first: other,
            second: empty_disk(rt, alloc),
        },
    }
}

fn run_link<R: Abort + Threads + Wait + Sync>(
    rt: &R,
    alloc: Global,
    link: &Link<'_>,
    ends: Ends,
) -> Left {
    let plan = Plan {
        words: link.words,
        input: link.input,
        file: None,
        reads: &[],
        puts: &[],
        calls: &[],
    };
    let Ends { first, second } = ends;
    run_drives(rt, alloc, &plan, first, second, &OpenGate)
}

fn run_chain<R: Abort + Threads + Wait + Sync>(
    rt: &R,
    alloc: Global,
    links: &[Link<'_>],
    crash: Crash,
) {
    let mut ends = Ends {
        first: empty_disk(rt, alloc),
        second: empty_disk(rt, alloc),
    };
    for link in links {
        let left = run_link(rt, alloc, link, ends);
        holds(rt, left.tells(0, link.text), link.name);
        ends = next_of(rt, alloc, left, link.next, crash);
    }
}

const CRASHES: &[Crash] = &[
    Crash { len: 0, fill: 0 },
    Crash { len: 0, fill: 1 },
    Crash {
        len: 1 << 40,
        fill: 1,
    },
    Crash {
        len: 1 << 40,
        fill: 9,
    },
];

fn run_chains<R: Abort + Threads + Wait + Sync>(rt: &R, alloc: Global) {
    for crash in CRASHES {
        run_chain(rt, alloc, LOG_TO_COPY, *crash);
        run_chain(rt, alloc, MADE_AGAIN, *crash);
    }
}

#[test]
fn each_command_goes_on_where_the_one_before_or_a_crash_in_it_left_off(rt: HostRuntime) {
    run_chains(&rt, rt.alloc());
}
