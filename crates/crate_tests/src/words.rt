//! Words that are accepted, and words that aren't.
use command_words::{Command, Made, command_in};
use std::alloc::Global;
use std::process::Abort;
use zorder::{Point, Region};

// What a command says: its word, its file and its numbers.
type Said<'a> = (&'a str, Option<&'a str>, [u64; 4]);

const USAGE: Said<'static> = ("usage", None, [0; 4]);

fn said(command: Option<Command<'_>>) -> Said<'_> {
    match command {
        Some(Command::Init(file, width)) => ("init", Some(file), [u64::from(width), 0, 0, 0]),
        Some(Command::Check(file)) => ("check", Some(file), [0; 4]),
        Some(Command::Play(file, size)) => ("play", file, [u64::from(size), 0, 0, 0]),
        Some(Command::Show(file, region)) => ("show", Some(file), corners(region)),
        Some(Command::Trial(file, made)) => ("trial", file, numbers(made)),
        Some(Command::Compact(file, _)) => ("compact", Some(file), [0; 4]),
        Some(Command::Watch(file)) => ("watch", Some(file), [0; 4]),
        Some(Command::Follow(file, _)) => ("follow", Some(file), [0; 4]),
        None => USAGE,
    }
}

fn corners(region: Region) -> [u64; 4] {
    let Region {
        lo: Point { x, y },
        hi: Point { x: a, y: b },
    } = region;
    [u64::from(x), u64::from(y), u64::from(a), u64::from(b)]
}

fn numbers(made: Made) -> [u64; 4] {
    [u64::from(made.rows), made.seed, 0, 0]
}

fn words_of(rt: &impl Abort, alloc: Global, line: &str) -> Vec<String> {
    let mut words = Vec::new(alloc);
    for word in line.split(' ') {
        add(rt, alloc, &mut words, word);
    }
    words
}

fn add(rt: &impl Abort, alloc: Global, words: &mut Vec<String>, word: &str) {
    let word = String::from_str(alloc, word).expect(rt, "no memory");
    words.push(word).expect(rt, "no memory");
}

// Fails unless a line of words has this meaning.
fn expect_asked(rt: &impl Abort, alloc: Global, line: &str, wanted: Said<'_>) {
    let words = words_of(rt, alloc, line);
    assert_same!(rt; said(command_in(words.as_slice())), wanted);
}

const FILE: Option<&str> = Some("moves.log");

const COMMANDS: &[(&str, Said<'static>)] = &[
    ("init moves.log", ("init", FILE, [1, 0, 0, 0])),
    ("init moves.log --quad", ("init", FILE, [2, 0, 0, 0])),
    ("check moves.log", ("check", FILE, [0; 4])),
    ("play -", ("play", None, [64, 0, 0, 0])),
    ("play moves.log", ("play", FILE, [64, 0, 0, 0])),
    ("play - --bucket 4", ("play", None, [4, 0, 0, 0])),
    (
        "play moves.log --bucket 4096",
        ("play", FILE, [4096, 0, 0, 0]),
    ),
    ("show moves.log 0 0 1 1", ("show", FILE, [0, 0, 1, 1])),
    ("show moves.log 5 0 5 007", ("show", FILE, [5, 0, 5, 7])),
    (
        "show moves.log 0 0 4294967295 4294967295",
        ("show", FILE, [0, 0, 4294967295, 4294967295]),
    ),
    ("compact moves.log new.log", ("compact", FILE, [0; 4])),
    ("watch moves.log", ("watch", FILE, [0; 4])),
    ("follow moves.log new.log", ("follow", FILE, [0; 4])),
    ("trial - 1 0", ("trial", None, [1, 0, 0, 0])),
    (
        "trial moves.log 65536 18446744073709551615",
        ("trial", FILE, [65536, 18446744073709551615, 0, 0]),
    ),
];

#[test]
fn each_command_has_its_words(rt: HostRuntime) {
    for (line, wanted) in COMMANDS {
        expect_asked(&rt, rt.alloc(), line, *wanted);
    }
}

const OTHER_WORDS: &[&str] = &[
    "",
    "help",
    "--help",
    "init",
    "init -",
    "init moves.log more",
    "init --quad",
    "init - --quad",
    "init --quad moves.log",
    "init moves.log --quad --quad",
    "check moves.log --quad",
    "play moves.log --quad",
    "check -x",
    "play",
    "play -x",
    "play - --bucket",
    "play - --bucket 3",
    "play - --bucket 4097",
    "play - --bucket +64",
    "play - --size 64",
    "play - --bucket 64 more",
    "show moves.log",
    "show - 0 0 1 1",
    "show moves.log 0 0 1",
    "show moves.log 0 0 1 1 1",
    "show moves.log 5 0 4 0",
    "show moves.log 0 5 0 4",
    "show moves.log 0 0 1 4294967296",
    "show moves.log 0 0 1 -1",
    "shows moves.log 0 0 1 1",
    "trial",
    "trial - 1",
    "trial -x 1 0",
    "trial - 0 1",
    "trial - 65537 1",
    "trial - 1 18446744073709551616",
    "trial - 1 2 more",
    "trial - 1 2 --bucket 64",
    "compact moves.log",
    "compact moves.log moves.log",
    "compact - new.log",
    "compact moves.log -",
    "compact moves.log  new.log",
    "compact moves.log new.log more",
    "watch",
    "watch -",
    "watch moves.log more",
    "follow moves.log",
    "follow moves.log moves.log",
    "follow - new.log",
    "follow moves.log -",
    "follow moves.log new.log more",
];

#[test]
fn other_words_are_usage(rt: HostRuntime) {
    for line in OTHER_WORDS {
        expect_asked(&rt, rt.alloc(), line, USAGE);
    }
}

fn compacts_into<'a>(words: &'a [String]) -> Option<&'a str> {
    match command_in(words) {
        Some(Command::Compact(_, new)) => Some(new),
        _ => None,
    }
}

#[test]
fn compact_names_the_new_file_last(rt: HostRuntime) {
    let words = words_of(&rt, rt.alloc(), "compact moves.log new.log");
    assert_same!(rt; compacts_into(words.as_slice()), Some("new.log"));
}
