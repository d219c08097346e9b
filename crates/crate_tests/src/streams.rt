//! Reads and puts that succeed, that fail in mid-stream, and over short reads and writes.
use crate::checks::same_bytes;
use io_edge::{MemSink, MemSource, ReadFault, Sink, Source, StdSink, StdSource, read_all};
use std::alloc::Global;
use std::io;
use std::io::{Read, Write};
use std::process::Abort;
use std::test::Fail;
use zorder::Memory;

// Returns one byte a call, counting down to 1, and fails when its number is `failing`.
#[derive(Drop)]
struct Countdown {
    number: u8,
    failing: u8,
}

impl Read for Countdown {
    fn read(&mut self, buf: &mut [u8]) -> io::Result<usize> {
        if self.number == self.failing {
            return Err(io::Error::from(io::ErrorKind::BrokenPipe));
        }
        if self.number == 0 || buf.is_empty() {
            return Ok(0);
        }
        buf[0] = self.number;
        self.number -= 1;
        Ok(1)
    }
}

// Accepts two bytes a call, and nothing when its room is used up.
#[derive(Drop)]
struct Pairs {
    room: usize,
}

impl Write for Pairs {
    fn write(&mut self, buf: &[u8]) -> io::Result<usize> {
        let n = buf.len().min(self.room).min(2);
        self.room -= n;
        Ok(n)
    }

    fn flush(&mut self) -> io::Result<()> {
        Ok(())
    }
}

fn source_of(rt: &impl Abort, alloc: Global, text: &[u8], failing: &[u64]) -> MemSource {
    let bytes = text.to_vec(alloc).expect(rt, "no memory");
    MemSource::new(bytes, failing.to_vec(alloc).expect(rt, "no memory"))
}

fn expect_all<S: Source>(rt: &impl Abort, alloc: Global, source: &mut S, most: usize, text: &[u8]) {
    let all = read_all(alloc, source, most).expect(rt, "it failed");
    same_bytes(rt, all.as_slice(), text);
}

// Whether a read of everything finds that the text is too long, or ends with a fault of the source.
fn is_too_long<S: Source>(alloc: Global, source: &mut S, most: usize) -> Option<bool> {
    match read_all(alloc, source, most) {
        Err(ReadFault::TooLong) => Some(true),
        Err(ReadFault::Source) => Some(false),
        _ => None,
    }
}

fn expect_fault<S: Source>(
    rt: &impl Abort,
    alloc: Global,
    source: &mut S,
    most: usize,
    too_long: bool,
) {
    assert_same!(rt; is_too_long(alloc, source, most), Some(too_long));
}

// Fails unless a read returns so many bytes, or fails where it is to.
fn expect_read<S: Source>(rt: &impl Abort, source: &mut S, into: &mut [u8], wanted: Option<usize>) {
    assert_same!(rt; source.read(into).ok(), wanted);
}

#[test]
fn a_source_in_memory_is_read_to_its_end(rt: HostRuntime) {
    let mut source = source_of(&rt, rt.alloc(), b"id,x,y", &[]);
    expect_all(&rt, rt.alloc(), &mut source, 6, b"id,x,y");
    expect_read(&rt, &mut source, &mut [0; 4], Some(0));
}

fn is_longer_than_4<S: Source>(rt: &impl Abort, alloc: Global, source: &mut S) {
    expect_fault(rt, alloc, source, 4, true);
    let mut rest = [0; 4];
    expect_read(rt, source, &mut rest, Some(2));
    same_bytes(rt, &rest, b"67\0\0");
}

#[test]
fn one_byte_above_the_bound_is_too_long(rt: HostRuntime) {
    is_longer_than_4(
        &rt,
        rt.alloc(),
        &mut source_of(&rt, rt.alloc(), b"1234567", &[]),
    );
}

fn fails_at_2_and_4<S: Source>(rt: &impl Abort, alloc: Global, source: &mut S) {
    let mut into = [0; 2];
    for told in [Some(2), None, Some(1)] {
        expect_read(rt, source, &mut into, told);
    }
    same_bytes(rt, &into, b"cb");
    expect_fault(rt, alloc, source, usize::MAX, false);
}

#[test]
fn listed_reads_fail_and_take_nothing(rt: HostRuntime) {
    fails_at_2_and_4(
        &rt,
        rt.alloc(),
        &mut source_of(&rt, rt.alloc(), b"abc", &[2, 4]),
    );
}

// Fails unless a sink accepts exactly those of these pieces that it is to accept.
fn expect_taken<K: Sink>(rt: &impl Abort, sink: &mut K, pieces: &[(&[u8], bool)]) {
    for (piece, is_taken) in pieces {
        assert_same!(rt; sink.put(piece).is_ok(), *is_taken);
    }
}

const PIECES: &[(&[u8], bool)] = &[
    (b"abc", true),
    (b"d", false),
    (b"def", false),
    (b"de", true),
    (b"", true),
];

// A sink with room for five bytes, whose second put fails.
fn five_bytes(alloc: Global) -> Result<MemSink, Memory> {
    MemSink::new(alloc, 5, Vec::from_slice(alloc, &[2])?)
}

#[test]
fn a_sink_in_memory_keeps_what_fits(rt: HostRuntime) {
    let mut sink = five_bytes(rt.alloc()).expect(&rt, "it failed");
    expect_taken(&rt, &mut sink, PIECES);
    same_bytes(&rt, sink.bytes(), b"abcde");
}

// Returns 5, 4, 3, 2 and 1, one a read, and fails instead of this one.
fn counting_down(failing: u8) -> StdSource<Countdown> {
    StdSource::new(Countdown { number: 5, failing })
}

#[test]
fn a_reader_of_short_reads_is_read_whole(rt: HostRuntime) {
    expect_all(
        &rt,
        rt.alloc(),
        &mut counting_down(9),
        100,
        &[5, 4, 3, 2, 1],
    );
}

#[test]
fn a_reader_that_fails_in_mid_stream_is_a_source_fault(rt: HostRuntime) {
    let mut source = counting_down(2);
    expect_fault(&rt, rt.alloc(), &mut source, 100, false);
    expect_read(&rt, &mut source, &mut [0; 4], None);
}

#[test]
fn a_writer_of_short_writes_takes_the_whole_piece_or_is_a_fault(rt: HostRuntime) {
    let mut sink = StdSink::new(Pairs { room: 5 });
    expect_taken(
        &rt,
        &mut sink,
        &[(&[1, 2, 3, 4, 5], true), (&[], true), (&[6], false)],
    );
}
