//! Sources that fail at each read, and sinks that fail at each put, also at the line of a refusal.
use crate::checks::{Case, EMPTY, is_left, is_untouched, run_case};
use crate::hostile::runs::must;
use crate::memory::{PUT_LOG, repeated};
use disk_mem::{DiskCall, Fail as Failing};
use std::alloc::{AllocError, Global};
use std::process::Abort;
use std::sync::Wait;
use std::thread::Threads;

const ROWS: u32 = 8_500;

// A put and many rows that look up where it is: more than a piece of 64 KiB, as input and as output.
fn long_input(alloc: Global) -> Result<String, AllocError> {
    let put = "session,op,id,x,y,a,b,moment\n1,put,7,3,5,,,0\n";
    repeated(alloc, put, ROWS.saturating_sub(1), "1,where,7,,,,,\n")
}

fn long_output(alloc: Global) -> Result<String, AllocError> {
    let mut text = String::from_str(alloc, "row,place,answer,detail\n1,1,done,\n")?;
    for row in 2..=ROWS {
        add_line(alloc, &mut text, row)?;
    }
    Ok(text)
}

fn add_line(alloc: Global, text: &mut String, row: u32) -> Result<(), AllocError> {
    let line = format!(in alloc; "{row},{row},at,3:5:0\n")?;
    text.push_str(&line)
}

const LONG_RUN: &Case<'static> = &Case {
    name: "a run of 8,500 rows",
    held: PUT_LOG,
    entries: ROWS as usize,
    ..EMPTY
};

// A long run in which these reads and puts would fail.
fn long_run<'a>(input: &'a str, output: &'a str, reads: &'a [u64], puts: &'a [u64]) -> Case<'a> {
    Case {
        input,
        reads,
        puts,
        text: output,
        ..*LONG_RUN
    }
}

const UNREAD: &Case<'static> = &Case {
    name: "a source that fails",
    status: 5,
    text: "refused source\n",
    attaches: "",
    ..EMPTY
};

fn unread<'a>(input: &'a str, reads: &'a [u64]) -> Case<'a> {
    Case {
        input,
        reads,
        ..*UNREAD
    }
}

// The source fails at each of two pieces, and at the end of the input.
fn each_read<R: Abort + Threads + Wait + Sync>(rt: &R, alloc: Global, input: &str) {
    for number in 1..=3 {
        is_untouched(rt, alloc, &unread(input, &[number]));
    }
}

// Fails unless a run whose sink fails at this put keeps all, and writes the beginning of these lines. Returns how long
// that is.
fn front_of_put<R: Abort + Threads + Wait + Sync>(
    rt: &R,
    alloc: Global,
    input: &str,
    output: &str,
    number: u64,
) -> usize {
    let left = run_case(rt, alloc, &long_run(input, output, &[], &[number]));
    let taken = left.taken.as_slice();
    let is_front = left.status == 6 && output.as_bytes().starts_with(taken);
    must(rt, is_front, "lines of put", number);
    let is_kept = left.file() == PUT_LOG && left.history().len() == ROWS as usize;
    must(rt, is_kept, "put", number);
    taken.len()
}

// The sink fails at each of three pieces.
fn each_put<R: Abort + Threads + Wait + Sync>(rt: &R, alloc: Global, input: &str, output: &str) {
    let mut least = 0;
    for number in 1..=3 {
        let len = front_of_put(rt, alloc, input, output, number);
        must(rt, len >= least, "how many lines of put", number);
        least = len.saturating_add(1);
    }
}

// After three reads and three puts there are no others.
fn each_call<R: Abort + Threads + Wait + Sync>(rt: &R, alloc: Global) {
    let input = long_input(alloc).expect(rt, "it failed");
    let output = long_output(alloc).expect(rt, "it failed");
    is_left(rt, alloc, &long_run(&input, &output, &[4], &[4]));
    each_read(rt, alloc, &input);
    each_put(rt, alloc, &input, &output);
}

#[test]
fn a_failing_source_is_status_5_and_a_failing_sink_6_at_each_call(rt: HostRuntime) {
    each_call(&rt, rt.alloc());
}

const NO_INPUT: Case<'static> = Case {
    name: "no input",
    input: "",
    status: 3,
    text: "refused header\n",
    attaches: "",
    ..EMPTY
};

const ONE_ROW: Case<'static> = Case {
    input: rows!("1,put,7,3,5,,,0\n"),
    ..EMPTY
};

// A log of no records, with the bytes of put 7 at (3,5) after its clear commit byte, and a clear one after that.
const UNSET_PUT_LOG: &[u8] = b"MDLOCLOG\x02\x01\0\0\0\0\0\0\
    \0\x01\0\0\0\0\0\0\0\x07\0\0\0\x03\0\0\0\x05\0\0\0\0\0\0\0\0\0\0\0\0\0\0\
    \0";

const REFUSED: &[Case<'static>] = &[
    NO_INPUT,
    Case {
        name: "play of no file",
        words: &["play"],
        status: 2,
        text: "refused usage\n",
        attaches: "",
        ..ONE_ROW
    },
    Case {
        name: "a row of seven fields",
        input: rows!("1,put,7,3,5,,\n"),
        text: "refused row 1 length\n",
        ..NO_INPUT
    },
    Case {
        name: "a sign in column 4",
        input: rows!("1,put,7,-3,5,,,0\n"),
        text: "refused row 1 column 4\n",
        ..NO_INPUT
    },
    Case {
        name: "17 zeros in place of a log",
        file: Some(&[0; 17]),
        status: 4,
        text: "refused not a log\n",
        held: &[0; 17],
        ..ONE_ROW
    },
    Case {
        name: "a source that fails",
        reads: &[1],
        status: 5,
        text: "refused source\n",
        attaches: "",
        ..ONE_ROW
    },
    Case {
        name: "a drive that can't be attached",
        calls: &[Failing {
            call: DiskCall::Attach,
            number: 1,
        }],
        status: 7,
        text: "refused disk\n",
        ..ONE_ROW
    },
    Case {
        name: "an append that fails at its first sync",
        calls: &[Failing {
            call: DiskCall::Sync,
            number: 2,
        }],
        status: 7,
        text: "refused disk cell 0\n",
        held: UNSET_PUT_LOG,
        entries: 1,
        ..ONE_ROW
    },
    Case {
        name: "init of 18 bytes",
        words: &["init", "log"],
        input: "",
        file: Some(&[0; 18]),
        status: 10,
        text: "refused in use 18\n",
        held: &[0; 18],
        attaches: "makes log\n",
        ..EMPTY
    },
];

// With a sink, and with one that doesn't accept the line.
fn each_refusal<R: Abort + Threads + Wait + Sync>(rt: &R, alloc: Global) {
    for case in REFUSED {
        is_left(rt, alloc, case);
        let untold = Case {
            puts: &[1],
            text: "",
            ..*case
        };
        is_left(rt, alloc, &untold);
    }
}

#[test]
fn a_refusal_whose_line_is_not_taken_keeps_its_status(rt: HostRuntime) {
    each_refusal(&rt, rt.alloc());
}
