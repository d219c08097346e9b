//! 16 sessions that share ids, over logs whose leaves split in two or in four. Each line, and what the log keeps, is
//! what one plain list has.
use crate::hostile::draws::Draws;
use crate::hostile::runs::{found_in, must, playing};
use crate::memory::{EMPTY_LOG, EMPTY_QUAD_LOG, Left, run_plan};
use plain_list::{Answer, Entry, Op, Stamped, World, WorldBack, after, answer};
use std::alloc::{AllocError, Global};
use std::process::Abort;
use std::sync::Wait;
use std::thread::Threads;
use zorder::{Memory, Placed, Point, Region};

// Row n is one of session 1 + (n - 1) mod 16.
const ROWS: u32 = 480;

// How many rows there are if most of them are queries, and how many change something before that.
const ASKING_ROWS: u32 = 1_920;

const FIRST_ROWS: u32 = 320;

const SESSIONS: u32 = 16;

const HALF: u32 = 1 << 31;

const CORNER: Point = Point {
    x: u32::MAX,
    y: u32::MAX,
};

// One of few, so that leaves are split.
fn coordinate(draws: &mut Draws) -> u32 {
    match draws.below(5) {
        0 => 0,
        1 => 1,
        2 => HALF - 1,
        3 => HALF,
        _ => u32::MAX,
    }
}

fn point(draws: &mut Draws) -> Point {
    let x = coordinate(draws);
    let y = coordinate(draws);
    Point { x, y }
}

// Moments rise with the numbers of rows, and some are late.
fn op(draws: &mut Draws, number: u32) -> Op {
    let id = draws.below(40);
    let at = point(draws);
    let moment = draws.below(100).saturating_add(number as u64);
    match draws.below(10) {
        0..=3 => Op::Put { id, at, moment },
        4 | 5 => Op::Move { id, at, moment },
        6 => Op::Remove { id },
        7 => Op::Find { id },
        8 => Op::Within {
            region: Region { lo: at, hi: CORNER },
        },
        _ => Op::Near { at, k: 3 },
    }
}

fn ops_of(alloc: Global, seed: u64) -> Result<Vec<Op>, AllocError> {
    let mut draws = Draws::new(seed);
    let mut ops = Vec::new(alloc);
    for number in 0..ROWS {
        ops.push(op(&mut draws, number))?;
    }
    Ok(ops)
}

// After some rows of each kind, sessions with only queries, 100 rows each, and as many sessions that continue as
// before.
fn asking_ops(alloc: Global, seed: u64, changing: u32) -> Result<Vec<Op>, AllocError> {
    let mut draws = Draws::new(seed);
    let mut ops = Vec::new(alloc);
    for number in 0..ASKING_ROWS {
        let op = if number < FIRST_ROWS || number % SESSIONS < changing {
            op(&mut draws, number)
        } else {
            question(&mut draws)
        };
        ops.push(op)?;
    }
    Ok(ops)
}

fn question(draws: &mut Draws) -> Op {
    let at = point(draws);
    match draws.below(4) {
        0 => Op::Within {
            region: Region { lo: at, hi: at },
        },
        _ => Op::Near { at, k: 3 },
    }
}

fn row_of(alloc: Global, session: u32, op: &Op) -> Result<String, AllocError> {
    match *op {
        Op::Put {
            id,
            at: Point { x, y },
            moment,
        } => { format!(in alloc; "{session},put,{id},{x},{y},,,{moment}\n") }
        Op::Move {
            id,
            at: Point { x, y },
            moment,
        } => { format!(in alloc; "{session},move,{id},{x},{y},,,{moment}\n") }
        Op::Remove { id } => format!(in alloc; "{session},drop,{id},,,,,\n"),
        Op::Find { id } => format!(in alloc; "{session},where,{id},,,,,\n"),
        Op::Within {
            region: Region {
                lo: Point { x, y },
                hi: Point { x: a, y: b },
            },
        } => { format!(in alloc; "{session},box,,{x},{y},{a},{b},\n") }
        Op::Near {
            at: Point { x, y },
            k,
        } => format!(in alloc; "{session},near,,{x},{y},{k},,\n"),
    }
}

fn input_of(alloc: Global, ops: &[Op]) -> Result<String, AllocError> {
    let mut input = String::from_str(alloc, "session,op,id,x,y,a,b,moment\n")?;
    let mut before = 0_u32;
    for op in ops {
        let row = row_of(alloc, (before % SESSIONS).saturating_add(1), op)?;
        input.push_str(&row)?;
        before = before.saturating_add(1);
    }
    Ok(input)
}

// The word of an answer, and the position after it.
fn word_of(answer: &Answer) -> (&'static str, Option<Stamped>) {
    match answer {
        Answer::Done => ("done", None),
        Answer::Present(kept) => ("present", Some(*kept)),
        Answer::Full => ("full", None),
        Answer::Moved(kept) => ("moved", Some(*kept)),
        Answer::Stale(kept) => ("stale", Some(*kept)),
        Answer::Gone(kept) => ("gone", Some(*kept)),
        Answer::At(kept) => ("at", Some(*kept)),
        Answer::Absent => ("absent", None),
        Answer::Found(_) => ("found", None),
        Answer::Many(_) => ("many", None),
    }
}

fn add_list(alloc: Global, line: &mut String, list: &[Placed]) -> Result<(), AllocError> {
    let mut between = "";
    for placed in list {
        let Placed {
            id,
            at: Point { x, y },
        } = *placed;
        let object = format!(in alloc; "{between}{id}:{x}:{y}")?;
        line.push_str(&object)?;
        between = ";";
    }
    Ok(())
}

fn line_of(alloc: Global, row: u32, place: u64, answer: &Answer) -> Result<String, AllocError> {
    let (word, kept) = word_of(answer);
    let mut line = format!(in alloc; "{row},{place},{word},")?;
    if let Some(
        Stamped {
            at: Point { x, y },
            moment,
        },
    ) = kept
    {
        let position = format!(in alloc; "{x}:{y}:{moment}")?;
        line.push_str(&position)?;
    }
    if let Answer::Found(list) = answer {
        add_list(alloc, &mut line, list.as_slice())?;
    }
    line.push_str("\n")?;
    Ok(line)
}

// What one plain list has after the calls of a history, the line of each row, and how many rows of each session were
// called.
#[derive(Drop)]
struct Tale {
    world: World,
    lines: Vec<String>,
    called: Vec<u32>,
    place: u64,
}

fn no_lines(alloc: Global, rows: usize) -> Result<Vec<String>, AllocError> {
    let mut lines = Vec::new(alloc);
    for _ in 0..rows {
        lines.push(String::new(alloc))?;
    }
    Ok(lines)
}

impl Tale {
    fn new(alloc: Global, rows: usize) -> Result<Tale, AllocError> {
        Ok(Tale {
            world: World::empty(alloc),
            lines: no_lines(alloc, rows)?,
            called: vec![in alloc; 0; 16]?,
            place: 0,
        })
    }

    // Whether this is the session's next row. If so, it is called.
    fn is_next(&mut self, session: u8, row: u32) -> bool {
        let before = (session as u32).saturating_sub(1);
        let Some(slot) = self.called.get_mut(before as usize) else {
            return false;
        };
        let wanted = slot.saturating_mul(SESSIONS).saturating_add(session as u32);
        *slot = slot.saturating_add(1);
        row == wanted
    }

    fn call(&mut self, alloc: Global, row: u32, op: &Op) -> Result<(), Memory> {
        let answer = answer(alloc, &self.world, op)?;
        self.place = self.place.saturating_add(1);
        let line = line_of(alloc, row, self.place, &answer)?;
        if let Some(slot) = self.lines.get_mut((row as usize).saturating_sub(1)) {
            *slot = line;
        }
        self.change(alloc, op)
    }

    fn change(&mut self, alloc: Global, op: &Op) -> Result<(), Memory> {
        let world = std::mem::replace(&mut self.world, World::empty(alloc));
        match after(world, op) {
            Ok(world) => {
                self.world = world;
                Ok(())
            }
            Err(WorldBack { .. }) => Err(Memory),
        }
    }

    fn add<R: Abort>(&mut self, rt: &R, alloc: Global, ops: &[Op], event: &Entry) {
        match event {
            Entry::Call { session, row, op } => {
                let asked = ops.get((*row as usize).saturating_sub(1));
                let is_asked = asked == Some(op) && self.is_next(*session, *row);
                must(rt, is_asked, "which row was called:", *row as u64);
                self.call(alloc, *row, op).expect(rt, "it failed");
            }
            Entry::Fail { cell, .. } => must(rt, false, "an append failed, of cell", *cell),
            _ => {}
        }
    }

    fn output(&self, alloc: Global) -> Result<String, AllocError> {
        let mut text = String::from_str(alloc, "row,place,answer,detail\n")?;
        for line in self.lines.iter() {
            text.push_str(line)?;
        }
        Ok(text)
    }
}

fn tale_of<R: Abort>(rt: &R, alloc: Global, ops: &[Op], events: &[Entry]) -> Tale {
    let mut tale = Tale::new(alloc, ops.len()).expect(rt, "it failed");
    for event in events {
        tale.add(rt, alloc, ops, event);
    }
    tale
}

// Whether the log of this width keeps what the list has, and leaves of it were split.
fn is_kept<R: Abort>(rt: &R, alloc: Global, width: u8, left: &Left, world: &World) -> bool {
    let found = found_in(rt, alloc, width, left.file()).expect(rt, "a log is refused");
    let [_, _, leaves, unfinished, _] = found.counts;
    found.objects.as_slice() == world.as_slice() && leaves > 1 && unfinished == 0
}

fn play<R: Abort + Threads + Wait + Sync>(
    rt: &R,
    alloc: Global,
    width: u8,
    file: &[u8],
    ops: &[Op],
) {
    let input = input_of(alloc, ops).expect(rt, "it failed");
    let left = run_plan(rt, alloc, &playing(&input, file, &[]));
    let tale = tale_of(rt, alloc, ops, left.history());
    let output = tale.output(alloc).expect(rt, "it failed");
    must(rt, left.tells(0, &output), "lines of width", width as u64);
    let is_kept = is_kept(rt, alloc, width, &left, &tale.world);
    must(rt, is_kept, "objects of width", width as u64);
}

fn play_each<R: Abort + Threads + Wait + Sync>(rt: &R, alloc: Global, ops: &[Op]) {
    play(rt, alloc, 1, EMPTY_LOG, ops);
    play(rt, alloc, 2, EMPTY_QUAD_LOG, ops);
}

fn play_shared<R: Abort + Threads + Wait + Sync>(rt: &R, alloc: Global) {
    let ops = ops_of(alloc, 2027).expect(rt, "it failed");
    play_each(rt, alloc, ops.as_slice());
}

fn play_asking<R: Abort + Threads + Wait + Sync>(rt: &R, alloc: Global, changing: u32) {
    let ops = asking_ops(alloc, 2028, changing).expect(rt, "it failed");
    play_each(rt, alloc, ops.as_slice());
}

#[test]
fn what_16_sessions_on_shared_ids_are_told_and_leave_is_what_one_list_has(rt: HostRuntime) {
    play_shared(&rt, rt.alloc());
}

#[test]
fn what_16_sessions_that_only_ask_are_told_is_what_one_list_has(rt: HostRuntime) {
    play_asking(&rt, rt.alloc(), 0);
}

#[test]
fn what_sessions_that_only_ask_are_told_beside_one_that_changes_is_what_one_list_has(
    rt: HostRuntime,
) {
    play_asking(&rt, rt.alloc(), 1);
}
