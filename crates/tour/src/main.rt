//! Runs several commands in sequence, each as the program would. The exit status is that of the last one. The word `;`
//! ends a command.
//!
//! A command that begins with `from FILE` reads FILE instead of standard input. So does one that begins with `count
//! FILE`, but it prints how many lines the command wrote instead of the lines. So a play of many sessions can be among
//! the commands, though its places differ from run to run.
#![tactic(auto)]

use disk_trait::LogDisk;
use io_edge::{MemSink, MemSource, StdSink};
use machine_run::{file_drive, out_of_memory, run_over, run_words, words_of};
use std::fs::{self, Files};
use std::io::{self, Print};
use std::process::ExitCode;
use std::sync::Wait;
use std::thread::Threads;

// How many bytes the counted lines may have.
const ROOM: usize = 65_536;

fn main(rt: HostRuntime) -> ExitCode {
    let Ok(words) = words_of(&rt) else {
        return out_of_memory(&rt);
    };
    let mut status = ExitCode::SUCCESS;
    for command in words.as_slice().split(|word| word.as_str() == ";") {
        let (Ok(disk), Ok(other)) = (file_drive(&rt), file_drive(&rt)) else {
            return out_of_memory(&rt);
        };
        status = match command {
            [first, file, rest @ ..] if first.as_str() == "from" => read_from(
                &rt,
                file.as_str(),
                rest,
                disk,
                other,
            ),
            [first, file, rest @ ..] if first.as_str() == "count" => count(
                &rt,
                file.as_str(),
                rest,
                disk,
                other,
            ),
            _ => run_words(&rt, command, disk, other),
        };
    }
    status
}

// Runs a command on the bytes of a file.
fn read_from<R: Threads + Wait + Sync + AllocGlobal + Files + Print, D: LogDisk + Send>(
    rt: &R,
    file: &str,
    words: &[String],
    disk: D,
    other: D,
) -> ExitCode {
    let Ok(bytes) = fs::read(rt, file) else {
        return ExitCode::FAILURE;
    };
    let mut source = MemSource::new(bytes, Vec::new(rt.alloc()));
    let mut sink = StdSink::new(io::writer(rt));
    run_over(rt, words, &mut source, &mut sink, disk, other)
}

// The same, but prints how many lines the command wrote instead of the lines.
fn count<R: Threads + Wait + Sync + AllocGlobal + Files + Print, D: LogDisk + Send>(
    rt: &R,
    file: &str,
    words: &[String],
    disk: D,
    other: D,
) -> ExitCode {
    let Ok(bytes) = fs::read(rt, file) else {
        return ExitCode::FAILURE;
    };
    let Ok(mut sink) = MemSink::new(rt.alloc(), ROOM, Vec::new(rt.alloc())) else {
        return out_of_memory(rt);
    };
    let mut source = MemSource::new(bytes, Vec::new(rt.alloc()));
    let status = run_over(rt, words, &mut source, &mut sink, disk, other);
    let lines = sink.bytes().iter().filter(|byte| **byte == b'\n').count();
    match println!(rt; "{lines} lines") {
        Ok(()) => status,
        Err(_) => ExitCode::FAILURE,
    }
}
