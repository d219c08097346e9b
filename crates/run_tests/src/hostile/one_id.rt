//! One id for all sessions. Each line is the one that a single object would have, if the rows changed it in the order
//! of the history.
use crate::hostile::clock::{Trial, judge_images};
use crate::hostile::records::{DROP, MOVE, PUT, Record};
use crate::hostile::runs::{is_log_of, is_refused, must, playing};
use crate::memory::{EMPTY_LOG, Left, run_plan};
use disk_mem::{DiskCall, Fail as Failing};
use plain_list::{Answer, Call, Entry, Lost, Op, Stamped, World, is_legal};
use std::alloc::{AllocError, Global};
use std::process::Abort;
use std::sync::Wait;
use std::thread::Threads;
use zorder::Point;

// Each session puts the id at a point of its own.
const PUTS: &str = "session,op,id,x,y,a,b,moment\n\
    1,put,1,1,0,,,0\n2,put,1,2,0,,,0\n3,put,1,3,0,,,0\n4,put,1,4,0,,,0\n\
    5,put,1,5,0,,,0\n6,put,1,6,0,,,0\n7,put,1,7,0,,,0\n8,put,1,8,0,,,0\n\
    9,put,1,9,0,,,0\n10,put,1,10,0,,,0\n11,put,1,11,0,,,0\n12,put,1,12,0,,,0\n\
    13,put,1,13,0,,,0\n14,put,1,14,0,,,0\n15,put,1,15,0,,,0\n16,put,1,16,0,,,0\n";

// Each session puts, moves, removes and looks it up.
const CHANGES: &str = "session,op,id,x,y,a,b,moment\n\
    1,put,1,1,0,,,0\n1,move,1,1,1,,,0\n1,drop,1,,,,,\n1,where,1,,,,,\n\
    2,put,1,2,0,,,0\n2,move,1,2,1,,,0\n2,drop,1,,,,,\n2,where,1,,,,,\n\
    3,put,1,3,0,,,0\n3,move,1,3,1,,,0\n3,drop,1,,,,,\n3,where,1,,,,,\n\
    4,put,1,4,0,,,0\n4,move,1,4,1,,,0\n4,drop,1,,,,,\n4,where,1,,,,,\n\
    5,put,1,5,0,,,0\n5,move,1,5,1,,,0\n5,drop,1,,,,,\n5,where,1,,,,,\n\
    6,put,1,6,0,,,0\n6,move,1,6,1,,,0\n6,drop,1,,,,,\n6,where,1,,,,,\n\
    7,put,1,7,0,,,0\n7,move,1,7,1,,,0\n7,drop,1,,,,,\n7,where,1,,,,,\n\
    8,put,1,8,0,,,0\n8,move,1,8,1,,,0\n8,drop,1,,,,,\n8,where,1,,,,,\n\
    9,put,1,9,0,,,0\n9,move,1,9,1,,,0\n9,drop,1,,,,,\n9,where,1,,,,,\n\
    10,put,1,10,0,,,0\n10,move,1,10,1,,,0\n10,drop,1,,,,,\n10,where,1,,,,,\n\
    11,put,1,11,0,,,0\n11,move,1,11,1,,,0\n11,drop,1,,,,,\n11,where,1,,,,,\n\
    12,put,1,12,0,,,0\n12,move,1,12,1,,,0\n12,drop,1,,,,,\n12,where,1,,,,,\n\
    13,put,1,13,0,,,0\n13,move,1,13,1,,,0\n13,drop,1,,,,,\n13,where,1,,,,,\n\
    14,put,1,14,0,,,0\n14,move,1,14,1,,,0\n14,drop,1,,,,,\n14,where,1,,,,,\n\
    15,put,1,15,0,,,0\n15,move,1,15,1,,,0\n15,drop,1,,,,,\n15,where,1,,,,,\n\
    16,put,1,16,0,,,0\n16,move,1,16,1,,,0\n16,drop,1,,,,,\n16,where,1,,,,,\n";

// Each session puts it, moves it twice and looks it up. If two sessions run at once, the moments of one rise and those
// of the other fall.
const MOVES: &str = "session,op,id,x,y,a,b,moment\n\
    1,put,1,1,0,,,8\n1,move,1,1,1,,,1\n1,move,1,1,2,,,16\n1,where,1,,,,,\n\
    2,put,1,2,0,,,8\n2,move,1,2,1,,,2\n2,move,1,2,2,,,15\n2,where,1,,,,,\n\
    3,put,1,3,0,,,8\n3,move,1,3,1,,,3\n3,move,1,3,2,,,14\n3,where,1,,,,,\n\
    4,put,1,4,0,,,8\n4,move,1,4,1,,,4\n4,move,1,4,2,,,13\n4,where,1,,,,,\n\
    5,put,1,5,0,,,8\n5,move,1,5,1,,,5\n5,move,1,5,2,,,12\n5,where,1,,,,,\n\
    6,put,1,6,0,,,8\n6,move,1,6,1,,,6\n6,move,1,6,2,,,11\n6,where,1,,,,,\n\
    7,put,1,7,0,,,8\n7,move,1,7,1,,,7\n7,move,1,7,2,,,10\n7,where,1,,,,,\n\
    8,put,1,8,0,,,8\n8,move,1,8,1,,,8\n8,move,1,8,2,,,9\n8,where,1,,,,,\n\
    9,put,1,9,0,,,8\n9,move,1,9,1,,,9\n9,move,1,9,2,,,8\n9,where,1,,,,,\n\
    10,put,1,10,0,,,8\n10,move,1,10,1,,,10\n10,move,1,10,2,,,7\n10,where,1,,,,,\n\
    11,put,1,11,0,,,8\n11,move,1,11,1,,,11\n11,move,1,11,2,,,6\n11,where,1,,,,,\n\
    12,put,1,12,0,,,8\n12,move,1,12,1,,,12\n12,move,1,12,2,,,5\n12,where,1,,,,,\n\
    13,put,1,13,0,,,8\n13,move,1,13,1,,,13\n13,move,1,13,2,,,4\n13,where,1,,,,,\n\
    14,put,1,14,0,,,8\n14,move,1,14,1,,,14\n14,move,1,14,2,,,3\n14,where,1,,,,,\n\
    15,put,1,15,0,,,8\n15,move,1,15,1,,,15\n15,move,1,15,2,,,2\n15,where,1,,,,,\n\
    16,put,1,16,0,,,8\n16,move,1,16,1,,,16\n16,move,1,16,2,,,1\n16,where,1,,,,,\n";

// Which rows each session has.
#[derive(Clone, Copy)]
enum Script {
    // Those of `CHANGES`, or the first of them.
    Changes,
    // Those of `MOVES`.
    Moves,
}

fn put_at(x: u32, moment: u64) -> Op {
    let at = Point { x, y: 0 };
    Op::Put { id: 1, at, moment }
}

fn move_at(x: u32, y: u32, moment: u64) -> Op {
    let at = Point { x, y };
    Op::Move { id: 1, at, moment }
}

// The row of a session with this number, from 0.
fn op_of(script: Script, session: u8, number: u32) -> Op {
    let x = session as u32;
    let moment = session as u64;
    match (script, number) {
        (Script::Changes, 0) => put_at(x, 0),
        (Script::Changes, 1) => move_at(x, 1, 0),
        (Script::Changes, 2) => Op::Remove { id: 1 },
        (Script::Moves, 0) => put_at(x, 8),
        (Script::Moves, 1) => move_at(x, 1, moment),
        (Script::Moves, 2) => move_at(x, 2, 17_u64.saturating_sub(moment)),
        _ => Op::Find { id: 1 },
    }
}

// The answer to a row.
#[derive(Clone, Copy)]
enum Told {
    Done,
    Absent,
    Present(Stamped),
    Moved(Stamped),
    Stale(Stamped),
    Gone(Stamped),
    At(Stamped),
}

// The answer, and the record of its change.
#[derive(Clone, Copy)]
struct Reply(Told, Option<Record>);

fn reply_of(object: Option<Stamped>, op: &Op) -> Reply {
    match (*op, object) {
        (Op::Put { id, at, moment }, None) => {
            Reply(
                Told::Done,
                Some(Record::at(PUT, id, Stamped { at, moment })),
            )
        }
        (Op::Put { .. }, Some(kept)) => Reply(Told::Present(kept), None),
        (_, None) => Reply(Told::Absent, None),
        (Op::Move { id, at, moment }, Some(kept)) => moved(id, Stamped { at, moment }, kept),
        (Op::Remove { id }, Some(kept)) => Reply(Told::Gone(kept), Some(Record::of(DROP, id))),
        (_, Some(kept)) => Reply(Told::At(kept), None),
    }
}

fn moved(id: u64, to: Stamped, kept: Stamped) -> Reply {
    if to.moment < kept.moment {
        Reply(Told::Stale(kept), None)
    } else {
        Reply(Told::Moved(kept), Some(Record::at(MOVE, id, to)))
    }
}

// The word of an answer, and the position after it.
fn said(told: Told) -> (&'static str, Option<Stamped>) {
    match told {
        Told::Done => ("done", None),
        Told::Absent => ("absent", None),
        Told::Present(kept) => ("present", Some(kept)),
        Told::Moved(kept) => ("moved", Some(kept)),
        Told::Stale(kept) => ("stale", Some(kept)),
        Told::Gone(kept) => ("gone", Some(kept)),
        Told::At(kept) => ("at", Some(kept)),
    }
}

fn answer_of(told: Told) -> Answer {
    match told {
        Told::Done => Answer::Done,
        Told::Absent => Answer::Absent,
        Told::Present(kept) => Answer::Present(kept),
        Told::Moved(kept) => Answer::Moved(kept),
        Told::Stale(kept) => Answer::Stale(kept),
        Told::Gone(kept) => Answer::Gone(kept),
        Told::At(kept) => Answer::At(kept),
    }
}

fn line_of(alloc: Global, row: u32, place: u64, told: Told) -> Result<String, AllocError> {
    let (word, kept) = said(told);
    match kept {
        Some(
            Stamped {
                at: Point { x, y },
                moment,
            },
        ) => format!(in alloc; "{row},{place},{word},{x}:{y}:{moment}\n"),
        None => format!(in alloc; "{row},{place},{word},\n"),
    }
}

// What a history says. It has the place of the object, the records of its changes, and its calls with their answers. It
// also has the line of each row at its place in the input, and how many rows of each session were called. If an append
// failed, its record is the last one.
#[derive(Drop)]
struct Tale {
    script: Script,
    each: u32,
    object: Option<Stamped>,
    records: Vec<Record>,
    calls: Vec<Call>,
    lines: Vec<String>,
    called: Vec<u32>,
    place: u64,
}

fn no_lines(alloc: Global, rows: u32) -> Result<Vec<String>, AllocError> {
    let mut lines = Vec::new(alloc);
    for _ in 0..rows {
        lines.push(String::new(alloc))?;
    }
    Ok(lines)
}

impl Tale {
    fn new(alloc: Global, script: Script, each: u32) -> Result<Tale, AllocError> {
        Ok(Tale {
            script,
            each,
            object: None,
            records: Vec::new(alloc),
            calls: Vec::new(alloc),
            lines: no_lines(alloc, each.saturating_mul(16))?,
            called: vec![in alloc; 0; 16]?,
            place: 0,
        })
    }

    // Whether this is the session's next row. If so, it is called.
    fn is_next(&mut self, session: u8, row: u32, op: &Op) -> bool {
        let before = (session as u32).saturating_sub(1);
        let Some(slot) = self.called.get_mut(before as usize) else {
            return false;
        };
        let number = *slot;
        *slot = number.saturating_add(1);
        let place = before.saturating_mul(self.each).saturating_add(number);
        number < self.each
            && row == place.saturating_add(1)
            && *op == op_of(self.script, session, number)
    }

    fn set_line(&mut self, row: u32, line: String) {
        if let Some(slot) = self.lines.get_mut((row as usize).saturating_sub(1)) {
            *slot = line;
        }
    }

    fn change(&mut self, record: Option<Record>) -> Result<(), AllocError> {
        if let Some(record) = record {
            self.records.push(record)?;
            self.object = if record.kind == DROP {
                None
            } else {
                Some(record.position())
            };
        }
        Ok(())
    }

    fn call(&mut self, alloc: Global, session: u8, row: u32, op: Op) -> Result<(), AllocError> {
        let Reply(told, record) = reply_of(self.object, &op);
        self.place = self.place.saturating_add(1);
        let line = line_of(alloc, row, self.place, told)?;
        self.set_line(row, line);
        self.calls.push(Call {
            session,
            row,
            op,
            answer: answer_of(told),
        })?;
        self.change(record)
    }

    fn add<R: Abort>(&mut self, rt: &R, alloc: Global, event: &Entry) {
        match *event {
            Entry::Call { session, row, op } if self.is_next(session, row, &op) => {
                self.call(alloc, session, row, op).expect(rt, "it failed");
            }
            Entry::Fail {
                lost: Lost::Call { op, .. },
                ..
            } => {
                let Reply(_, record) = reply_of(self.object, &op);
                self.change(record).expect(rt, "it failed");
            }
            _ => rt.panic("neither a session's next row nor a failed one"),
        }
    }

    fn output(&self, alloc: Global) -> Result<String, AllocError> {
        let mut text = String::from_str(alloc, "row,place,answer,detail\n")?;
        for line in self.lines.iter() {
            text.push_str(line)?;
        }
        Ok(text)
    }
}

// The tale of the history of a run, which has so many rows of each session.
fn tale_of<R: Abort>(rt: &R, alloc: Global, script: Script, each: u32, events: &[Entry]) -> Tale {
    let mut tale = Tale::new(alloc, script, each).expect(rt, "it failed");
    for event in events {
        tale.add(rt, alloc, event);
    }
    tale
}

// Plays rows over a log of no records while these calls fail.
fn play<R: Abort + Threads + Wait + Sync>(
    rt: &R,
    alloc: Global,
    input: &str,
    calls: &[Failing],
) -> Left {
    run_plan(rt, alloc, &playing(input, EMPTY_LOG, calls))
}

fn judge<R: Abort>(rt: &R, alloc: Global, tale: &Tale, left: &Left, is_closed: bool) {
    let trial = Trial {
        width: 1,
        file: EMPTY_LOG,
        first: 0,
        records: tale.records.as_slice(),
        is_closed,
    };
    judge_images(rt, alloc, &trial, left);
}

// Whether each row had the answer in the tale, and one plain list agrees.
fn has_told<R: Abort>(rt: &R, alloc: Global, tale: &Tale, left: &Left) -> bool {
    let output = tale.output(alloc).expect(rt, "it failed");
    let is_told = tale.place == tale.lines.len() as u64 && left.tells(0, &output);
    let world = World::empty(alloc);
    is_told && is_legal(alloc, &world, tale.calls.as_slice()).expect(rt, "it failed")
}

// A run of so many rows of each session in which nothing fails. Returns its tale.
fn race<R: Abort + Threads + Wait + Sync>(
    rt: &R,
    alloc: Global,
    input: &str,
    script: Script,
    each: u32,
    round: u64,
) -> Tale {
    let left = play(rt, alloc, input, &[]);
    let tale = tale_of(rt, alloc, script, each, left.history());
    must(
        rt,
        has_told(rt, alloc, &tale, &left),
        "lines of round",
        round,
    );
    let records = tale.records.as_slice();
    must(
        rt,
        is_log_of(rt, alloc, 1, left.file(), records),
        "file of round",
        round,
    );
    judge(rt, alloc, &tale, &left, false);
    tale
}

fn race_puts<R: Abort + Threads + Wait + Sync>(rt: &R, alloc: Global) {
    for round in 0..20 {
        let tale = race(rt, alloc, PUTS, Script::Changes, 1, round);
        must(rt, tale.records.len() == 1, "records of round", round);
    }
}

#[test]
fn one_put_of_one_id_is_done_of_16_sessions(rt: HostRuntime) {
    race_puts(&rt, rt.alloc());
}

fn race_changes<R: Abort + Threads + Wait + Sync>(rt: &R, alloc: Global) {
    for round in 0..20 {
        let _tale = race(rt, alloc, CHANGES, Script::Changes, 4, round);
    }
}

#[test]
fn sixteen_sessions_on_one_id_have_one_history(rt: HostRuntime) {
    race_changes(&rt, rt.alloc());
}

fn race_moves<R: Abort + Threads + Wait + Sync>(rt: &R, alloc: Global) {
    for round in 0..20 {
        let tale = race(rt, alloc, MOVES, Script::Moves, 4, round);
        must(rt, keeps_the_last(&tale), "moment of round", round);
    }
}

// Whether the object has the greatest moment, and the 14 moves with moments below that of the puts were late. They are
// late in any order.
fn keeps_the_last(tale: &Tale) -> bool {
    let mut stale: u64 = 0;
    for call in tale.calls.iter() {
        if matches!(call.answer, Answer::Stale(_)) {
            stale = stale.saturating_add(1);
        }
    }
    stale >= 14 && matches!(tale.object, Some(Stamped { moment: 16, .. }))
}

#[test]
fn sixteen_sessions_that_move_one_id_keep_the_greatest_moment(rt: HostRuntime) {
    race_moves(&rt, rt.alloc());
}

// A run in which a sync fails. The session that removes the id first has moved it before, after a put. These are at
// least three appends, each with two syncs, after the sync of opening.
fn race_and_fail<R: Abort + Threads + Wait + Sync>(rt: &R, alloc: Global, input: &str, round: u64) {
    let cell = round % 6 / 2;
    let failing = Failing {
        call: DiskCall::Sync,
        number: (round % 6).saturating_add(2),
    };
    let left = play(rt, alloc, input, &[failing]);
    let tale = tale_of(rt, alloc, Script::Changes, 4, left.history());
    must(
        rt,
        is_refused(rt, alloc, &left, Some(cell)),
        "line of round",
        round,
    );
    let is_counted = tale.records.len() as u64 == cell.saturating_add(1);
    must(rt, is_counted, "records of round", round);
    judge(rt, alloc, &tale, &left, true);
}

fn fail_each<R: Abort + Threads + Wait + Sync>(rt: &R, alloc: Global) {
    for round in 0..60 {
        race_and_fail(rt, alloc, CHANGES, round);
    }
}

#[test]
fn a_failing_sync_ends_the_one_history_of_16_sessions(rt: HostRuntime) {
    fail_each(&rt, rt.alloc());
}
