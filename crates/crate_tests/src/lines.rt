//! Rows that are read, and lines that are written.
ghost use Rattle.std.specs.Prelude.{None};

use crate::answers::{Told, answer_of};
use crate::checks::same_bytes;
use cell_format::Cause;
use csv_rows::{InRow, Rows, RowsFault, number_in, read_rows, write_line, write_rows, write_title};
use io_edge::{Sink, SinkFault};
use plain_list::{Answer, Op, PlacedList, Stamped};
use run_ends::{Refusal, refusal_line};
use std::alloc::{AllocError, Global};
use std::process::Abort;
use zorder::{Placed, Point, Region};

/// Keeps what it is given, in so many puts.
#[derive(Drop)]
struct Kept {
    bytes: Vec<u8>,
    puts_left: usize,
    faults: u64,
}

impl Kept {
    fn new(alloc: Global, puts_left: usize) -> Kept {
        Kept {
            bytes: Vec::new(alloc),
            puts_left,
            faults: 0,
        }
    }
}

impl Sink for Kept {
    ghost output = { λ s. record { taken = None; faults = s.faults } };

    fn put(&mut self, piece: &[u8]) -> Result<(), SinkFault> {
        if self.puts_left == 0 || self.bytes.extend_from_slice(piece).is_err() {
            self.faults = self.faults.saturating_add(1);
            return Err(SinkFault);
        }
        self.puts_left -= 1;
        Ok(())
    }
}

fn expect_text(rt: &impl Abort, sink: &Kept, text: &[u8]) {
    same_bytes(rt, sink.bytes.as_slice(), text);
}

fn expect_rows(rt: &impl Abort, alloc: Global, text: &[u8], expected: &[InRow]) {
    let rows = read_rows(alloc, text).expect(rt, "it failed");
    assert_same!(rt; rows.as_slice(), expected);
}

fn how_many(alloc: Global, text: &[u8]) -> Result<usize, RowsFault> {
    let rows = read_rows(alloc, text)?;
    Ok(rows.as_slice().len())
}

fn expect_many(rt: &impl Abort, alloc: Global, text: &[u8], wanted: Result<usize, RowsFault>) {
    assert_same!(rt; how_many(alloc, text), wanted);
}

// Fails unless the rows after the header are refused for this fault.
fn expect_refused(rt: &impl Abort, alloc: Global, rows: &[u8], fault: RowsFault) {
    let text = with_header(rt, alloc, rows);
    expect_many(rt, alloc, text.as_slice(), Err(fault));
}

fn with_header(rt: &impl Abort, alloc: Global, rows: &[u8]) -> Vec<u8> {
    let mut text = b"session,op,id,x,y,a,b,moment\n"
        .to_vec(alloc)
        .expect(rt, "no memory");
    add(rt, &mut text, rows);
    text
}

fn add(rt: &impl Abort, text: &mut Vec<u8>, more: &[u8]) {
    text.extend_from_slice(more).expect(rt, "no memory");
}

const FIRST_ROWS: &[InRow] = &[
    InRow {
        session: 1,
        op: Op::Put {
            id: 7,
            at: Point { x: 3, y: 5 },
            moment: 10,
        },
    },
    InRow {
        session: 1,
        op: Op::Find { id: 7 },
    },
];

const SPELLINGS: &[&[u8]] = &[
    b"session,op,id,x,y,a,b,moment\n1,put,7,3,5,,,10\n1,where,7,,,,,\n",
    b"session,op,id,x,y,a,b,moment\r\n\"1\",\"put\",\"7\",\"3\",\"5\",\"\",\"\",\"10\"\r\n\"1\",\"where\",\"7\",,,,,\r\n",
    b"\xEF\xBB\xBFsession,op,id,x,y,a,b,moment\n1,put,7,3,5,,,10\n1,where,7,,,,,\n",
    b"\nsession,op,id,x,y,a,b,moment\n\n\n1,put,7,3,5,,,10\n\n1,where,7,,,,,",
    b"session,op,id,x,y,a,b,moment\n01,put,007,03,0000000005,,,00000000000000000010\n1,where,00000000000000000007,,,,,\n",
];

#[test]
fn quotes_line_ends_empty_lines_and_one_mark_change_no_row(rt: HostRuntime) {
    for text in SPELLINGS {
        expect_rows(&rt, rt.alloc(), text, FIRST_ROWS);
    }
}

const CORNER: Point = Point { x: 3, y: 5 };

const OTHER_ROWS: &[InRow] = &[
    InRow {
        session: 16,
        op: Op::Move {
            id: 18_446_744_073_709_551_615,
            at: Point {
                x: 4_294_967_295,
                y: 0,
            },
            moment: 18_446_744_073_709_551_615,
        },
    },
    InRow {
        session: 2,
        op: Op::Put {
            id: 0,
            at: CORNER,
            moment: 0,
        },
    },
    InRow {
        session: 2,
        op: Op::Remove { id: 0 },
    },
    InRow {
        session: 1,
        op: Op::Within {
            region: Region {
                lo: CORNER,
                hi: CORNER,
            },
        },
    },
    InRow {
        session: 1,
        op: Op::Near {
            at: Point { x: 0, y: 0 },
            k: 2048,
        },
    },
];

const OTHER_TEXT: &[u8] =
    b"session,op,id,x,y,a,b,moment\n16,move,18446744073709551615,4294967295,0,,,18446744073709551615\n2,put,0,3,5,,,0\n2,drop,0,,,,,\n1,box,,3,5,3,5,\n1,near,,0,0,2048,,\n";

#[test]
fn the_other_operations_and_the_least_and_the_greatest_moment_are_read(rt: HostRuntime) {
    expect_rows(&rt, rt.alloc(), OTHER_TEXT, OTHER_ROWS);
}

const NO_HEADERS: &[&[u8]] = &[
    b"",
    b"1,put,7,3,5,,,10\n",
    b"session,op,id,x,y,a,b\n",
    b"session,op,id,x,y,a,b\n1,put,7,3,5,,\n",
    b"session,op,id,x,y,a,b,Moment\n",
    b"session,op,id,x,y,a,b,moment,\n",
    b"\xEF\xBB\xBF\xEF\xBB\xBFsession,op,id,x,y,a,b,moment\n",
];

#[test]
fn the_header_is_the_first_record_behind_one_mark(rt: HostRuntime) {
    for text in NO_HEADERS {
        expect_many(&rt, rt.alloc(), text, Err(RowsFault::Header));
    }
    expect_many(&rt, rt.alloc(), b"session,op,id,x,y,a,b,moment", Ok(0));
}

const FAULTS: &[(&[u8], u32, u8)] = &[
    (b"17,put,7,3,5,,,10\n", 1, 1),
    (b"0,put,7,3,5,,,10\n", 1, 1),
    (b"17,push,7,3,5,,,10\n", 1, 1),
    (b"1,Put,7,3,5,,,10\n", 1, 2),
    (b"1,,,,,,,\n", 1, 2),
    (b"1,put,,3,5,,,10\n", 1, 3),
    (b"1,put,18446744073709551616,3,5,,,10\n", 1, 3),
    (b"1,where,000000000000000000007,,,,,\n", 1, 3),
    (b"1,near,7,0,0,1,,\n", 1, 3),
    (b"1,put,7,-3,5,,,10\n", 1, 4),
    (b"1,put,7,+3,5,,,10\n", 1, 4),
    (b"1,put,7, 3,5,,,10\n", 1, 4),
    (b"1,put,7,4294967296,-5,,,10\n", 1, 4),
    (b"1,put,7,3,5.,1,,10\n", 1, 5),
    (b"1,put,7,3,5,0,,10\n", 1, 6),
    (
        b"1,put,7,3,5,,,10\n1,box,,4,5,3,5,\n1,put,-7,3,5,,,10\n",
        2,
        6,
    ),
    (
        b"1,put,9,0,5,,,10\n1,put,4,3,4,,,10\n1,near,,0,0,0,,\n",
        3,
        6,
    ),
    (b"1,near,,0,0,2049,,\n", 1, 6),
    (b"1,box,,3,5,3,4,\n", 1, 7),
    (b"1,drop,7,,,,1,\n", 1, 7),
    (b"1,put,7,3,5,,1,\n", 1, 7),
    (b"1,put,7,3,5,,,\n", 1, 8),
    (b"1,move,7,3,5,,,\n", 1, 8),
    (b"1,put,7,3,5,,,18446744073709551616\n", 1, 8),
    (b"1,move,7,3,5,,,18446744073709551616\n", 1, 8),
    (b"1,put,7,3,5,,,000000000000000000010\n", 1, 8),
    (b"1,put,7,3,5,,,-1\n", 1, 8),
    (b"1,drop,7,,,,,10\n", 1, 8),
    (b"1,where,7,,,,,0\n", 1, 8),
    (b"1,box,,3,5,3,5,10\n", 1, 8),
    (b"1,near,,0,0,1,,10\n", 1, 8),
];

#[test]
fn the_leftmost_column_of_the_first_row_at_fault_is_named(rt: HostRuntime) {
    for (rows, row, column) in FAULTS {
        let (row, column) = (*row, *column);
        expect_refused(&rt, rt.alloc(), rows, RowsFault::Field { row, column });
    }
}

const LENGTHS: &[(&[u8], u32)] = &[
    (b"1,put,7,3,5,,\n", 1),
    (b"1,put,7,3,5,,,10\n1,put,7,3,5,,,10,\n", 2),
];

#[test]
fn a_row_of_seven_or_nine_fields_is_named(rt: HostRuntime) {
    for (rows, row) in LENGTHS {
        expect_refused(&rt, rt.alloc(), rows, RowsFault::Csv { row: *row });
    }
}

// 65,536 rows.
fn many_rows(rt: &impl Abort, alloc: Global) -> Vec<u8> {
    let mut text = with_header(rt, alloc, b"");
    for _ in 0..65_536 {
        add(rt, &mut text, b"1,where,7,,,,,\n");
    }
    text
}

#[test]
fn the_record_behind_65536_rows_is_one_too_many(rt: HostRuntime) {
    let mut text = many_rows(&rt, rt.alloc());
    expect_many(&rt, rt.alloc(), text.as_slice(), Ok(65_536));
    add(&rt, &mut text, b"x\n");
    expect_many(&rt, rt.alloc(), text.as_slice(), Err(RowsFault::TooMany));
}

const NUMBERS: &[(&[u8], u64, Option<u64>)] = &[
    (b"00000000000000000064", 4, Some(64)),
    (b"000000000000000000064", 4, None),
    (b"3", 4, None),
    (b"", 0, None),
];

#[test]
fn a_number_has_one_to_twenty_digits(rt: HostRuntime) {
    for (digits, low, number) in NUMBERS {
        assert_same!(rt; number_in(digits, *low, 4096), *number);
    }
}

const KEPT: Stamped = Stamped {
    at: CORNER,
    moment: 10,
};

const LAST: Stamped = Stamped {
    at: Point { x: 8, y: 0 },
    moment: 18_446_744_073_709_551_615,
};

const NEAR: &[Placed] = &[
    Placed {
        id: 4,
        at: Point { x: 3, y: 4 },
    },
    Placed {
        id: 9,
        at: Point { x: 0, y: 5 },
    },
];

const LINES: &[(u32, Told, &[u8])] = &[
    (1, Told::Done, b"1,1,done,\n"),
    (2, Told::At(KEPT), b"2,2,at,3:5:10\n"),
    (2, Told::Present(KEPT), b"2,2,present,3:5:10\n"),
    (2, Told::Stale(KEPT), b"2,2,stale,3:5:10\n"),
    (3, Told::Moved(KEPT), b"3,3,moved,3:5:10\n"),
    (4, Told::Gone(LAST), b"4,4,gone,8:0:18446744073709551615\n"),
    (5, Told::Absent, b"5,5,absent,\n"),
    (6, Told::Full, b"6,6,full,\n"),
    (7, Told::Many(2049), b"7,7,many,2049\n"),
    (2, Told::Found(&[]), b"2,2,found,\n"),
    (3, Told::Found(NEAR), b"3,3,found,4:3:4;9:0:5\n"),
];

fn expect_line(rt: &impl Abort, alloc: Global, number: u32, answer: &Answer, line: &[u8]) {
    let mut sink = Kept::new(alloc, 1);
    assert_is!(rt; write_line(&mut sink, number, u64::from(number), answer).is_ok());
    expect_text(rt, &sink, line);
}

fn expect_told(rt: &impl Abort, alloc: Global, number: u32, told: Told, line: &[u8]) {
    let answer = answer_of(alloc, told).expect(rt, "it failed");
    expect_line(rt, alloc, number, &answer, line);
}

#[test]
fn answers_are_written_as_lines(rt: HostRuntime) {
    for (number, told, line) in LINES {
        expect_told(&rt, rt.alloc(), *number, *told, line);
    }
}

const FAR: Placed = Placed {
    id: 18_446_744_073_709_551_615,
    at: Point {
        x: 4_294_967_295,
        y: 4_294_967_295,
    },
};

fn long_list(alloc: Global) -> Result<Answer, AllocError> {
    let points = vec![in alloc; FAR; 2048]?;
    Ok(Answer::Found(PlacedList::from_vec(points)))
}

fn goes_in_pieces(rt: &impl Abort, alloc: Global, answer: &Answer) {
    let mut sink = Kept::new(alloc, 100);
    assert_is!(rt; write_line(&mut sink, 1, 1, answer).is_ok());
    assert_same!(rt; sink.bytes.len(), 10 + 2048 * 43);
}

#[test]
fn a_list_of_2048_points_goes_in_pieces(rt: HostRuntime) {
    let answer = long_list(rt.alloc()).expect(&rt, "it failed");
    goes_in_pieces(&rt, rt.alloc(), &answer);
    assert_is!(rt; write_line(&mut Kept::new(rt.alloc(), 1), 1, 1, &answer).is_err());
}

const REFUSALS: &[(Refusal, &[u8])] = &[
    (Refusal::Usage, b"refused usage\n"),
    (Refusal::Header, b"refused header\n"),
    (Refusal::Csv { row: 1 }, b"refused row 1 length\n"),
    (
        Refusal::Field { row: 3, column: 6 },
        b"refused row 3 column 6\n",
    ),
    (Refusal::NotLog, b"refused not a log\n"),
    (
        Refusal::OldLog {
            version: 3,
            width: 1,
        },
        b"refused log version 3 width 1\n",
    ),
    (
        Refusal::Damaged {
            cell: 0,
            cause: Cause::ShortCell,
        },
        b"refused cell 0 short\n",
    ),
    (
        Refusal::Damaged {
            cell: 0,
            cause: Cause::Kind,
        },
        b"refused cell 0 kind\n",
    ),
    (
        Refusal::Damaged {
            cell: 0,
            cause: Cause::Reserved,
        },
        b"refused cell 0 reserved\n",
    ),
    (
        Refusal::Damaged {
            cell: 0,
            cause: Cause::BadName,
        },
        b"refused cell 0 name\n",
    ),
    (
        Refusal::Damaged {
            cell: 0,
            cause: Cause::Impossible,
        },
        b"refused cell 0 impossible\n",
    ),
    (Refusal::Source, b"refused source\n"),
    (Refusal::Disk { cell: Some(2) }, b"refused disk cell 2\n"),
    (Refusal::Disk { cell: None }, b"refused disk\n"),
    (Refusal::LongInput, b"refused limit bytes\n"),
    (Refusal::ManyRows, b"refused limit rows\n"),
    (Refusal::LongLog, b"refused limit cells\n"),
    (Refusal::LongEvents, b"refused limit events\n"),
    (Refusal::Memory, b"refused memory\n"),
    (Refusal::InUse { len: 49 }, b"refused in use 49\n"),
    (Refusal::Strange { cell: 3 }, b"refused cell 3 strange\n"),
];

fn expect_refusal(rt: &impl Abort, alloc: Global, refusal: &Refusal, text: &[u8]) {
    let mut sink = Kept::new(alloc, 1);
    assert_is!(rt; refusal_line(&mut sink, refusal).is_ok());
    expect_text(rt, &sink, text);
}

#[test]
fn refusals_are_written_as_lines(rt: HostRuntime) {
    for (refusal, text) in REFUSALS {
        expect_refusal(&rt, rt.alloc(), refusal, text);
    }
}

#[test]
fn the_title_is_written_as_a_line(rt: HostRuntime) {
    let mut sink = Kept::new(rt.alloc(), 1);
    assert_is!(rt; write_title(&mut sink).is_ok());
    expect_text(&rt, &sink, b"row,place,answer,detail\n");
}

fn expect_written(rt: &impl Abort, alloc: Global, rows: &Rows, text: &[u8]) {
    let mut sink = Kept::new(alloc, 1);
    assert_is!(rt; write_rows(&mut sink, rows).is_ok());
    expect_text(rt, &sink, text);
}

// The drawn row and each operation, with moments of up to 19 digits; and moments of 20 digits.
const WRITTEN: &[&[u8]] = &[
    b"session,op,id,x,y,a,b,moment\n1,put,1717,3938983765,2969520912,,,60104\n1,put,7,3,5,,,0\n16,move,7,8,8,,,1000000000000000000\n16,move,7,8,8,,,9999999999999999999\n1,drop,7,,,,,\n1,where,7,,,,,\n1,box,,3,5,3,5,\n1,near,,0,0,2048,,\n",
    b"session,op,id,x,y,a,b,moment\n1,put,7,3,5,,,10000000000000000000\n1,move,7,8,8,,,18446744073709551615\n1,where,7,,,,,\n",
];

#[test]
fn rows_are_written_as_they_are_read(rt: HostRuntime) {
    for text in WRITTEN {
        let rows = read_rows(rt.alloc(), text).expect(&rt, "it failed");
        expect_written(&rt, rt.alloc(), &rows, text);
    }
}

const TOLD: &[(RowsFault, &str)] = &[
    (RowsFault::Header, "the first record isn't the header"),
    (
        RowsFault::Csv { row: 3 },
        "row 3 has another number of fields",
    ),
    (
        RowsFault::Field { row: 3, column: 6 },
        "row 3: column 6 breaks its rule",
    ),
    (RowsFault::TooMany, "too many rows"),
    (RowsFault::Memory, "out of memory"),
];

fn expect_fault(rt: &impl Abort, alloc: Global, fault: &RowsFault, text: &str) {
    let told = format!(in alloc; "{fault}").expect(rt, "it failed");
    assert_same!(rt; told.as_str(), text);
}

#[test]
fn a_fault_of_rows_tells_its_place(rt: HostRuntime) {
    for (fault, text) in TOLD {
        expect_fault(&rt, rt.alloc(), fault, text);
    }
}
