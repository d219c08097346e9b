//! The columns of a row after its session: which words there are, what each of their columns may have, and what it
//! means.
//!
//! The code that reads and writes rows uses these tables, and knows no operation.
ghost use Rattle.std.specs.Prelude.{◌≡◌, ◌<◌, ◌^◌, ◌≤◌, length};
ghost use Rattle.plain_list.specs.Answer.{IsValid, FitsOp};
ghost use Rattle.csv_rows.specs.Columns.{AreKept, rules_of, op_of, word_by, columns_of, word_text};

use plain_list::Op;
use zorder::{Point, Region};

/// The operation that column 2 names.
#[derive(Clone, Copy)]
pub(crate) enum Word {
    Put,
    Move,
    Drop,
    Where,
    Box,
    Near,
}

/// All words.
pub(crate) const WORDS: [Word; 6] = [
    Word::Put,
    Word::Move,
    Word::Drop,
    Word::Where,
    Word::Box,
    Word::Near,
];

/// Columns 3 to 8 of a row: their texts, their numbers, or their rules.
#[derive(Clone, Copy)]
pub(crate) struct Columns<T> {
    pub id: T,
    pub x: T,
    pub y: T,
    pub a: T,
    pub b: T,
    pub moment: T,
}

/// What a column may have: nothing, or a number from `low` to `high`.
#[derive(Clone, Copy)]
pub enum Rule {
    Empty,
    Between { low: u64, high: u64 },
}

/// The rule for sessions.
pub(crate) const SESSION: Rule = Rule::Between { low: 1, high: 16 };

/// The rule for ids.
pub const ID: Rule = Rule::Between {
    low: 0,
    high: u64::MAX,
};

const MOMENT: Rule = Rule::Between {
    low: 0,
    high: u64::MAX,
};

const COORDINATE_MAX: u64 = 4_294_967_295;

/// The rule for coordinates.
pub const COORDINATE: Rule = Rule::Between {
    low: 0,
    high: COORDINATE_MAX,
};

const COUNT: Rule = Rule::Between { low: 1, high: 2048 };

/// The rule for a coordinate that is at least `low`.
#[inline(always)]
pub fn at_least(low: u64) -> Rule
    ensures { result ≡ Rule.Between low 4294967295 }
{
    Rule::Between {
        low,
        high: COORDINATE_MAX,
    }
}

/// Returns the spelling of a word.
#[inline(always)]
pub(crate) fn text_of(word: Word) -> &'static str
    ensures text { result.now ≡ word_text word }
    ensures short { length result.now ≤ 5 }
{
    match word {
        Word::Put => "put",
        Word::Move => "move",
        Word::Drop => "drop",
        Word::Where => "where",
        Word::Box => "box",
        Word::Near => "near",
    }
}

/// Returns the rules of a word's columns, if columns 4 and 5 have the numbers `x` and `y`. The rules of columns 3 to 5
/// don't depend on these.
#[inline(always)]
pub(crate) fn rules_of(word: Word, x: u64, y: u64) -> Columns<Rule>
    ensures { result ≡ rules_of word x y }
{
    match word {
        Word::Put | Word::Move => Columns {
            id: ID,
            x: COORDINATE,
            y: COORDINATE,
            a: Rule::Empty,
            b: Rule::Empty,
            moment: MOMENT,
        },
        Word::Drop | Word::Where => Columns {
            id: ID,
            x: Rule::Empty,
            y: Rule::Empty,
            a: Rule::Empty,
            b: Rule::Empty,
            moment: Rule::Empty,
        },
        Word::Box => Columns {
            id: Rule::Empty,
            x: COORDINATE,
            y: COORDINATE,
            a: at_least(x),
            b: at_least(y),
            moment: Rule::Empty,
        },
        Word::Near => Columns {
            id: Rule::Empty,
            x: COORDINATE,
            y: COORDINATE,
            a: COUNT,
            b: Rule::Empty,
            moment: Rule::Empty,
        },
    }
}

/// Returns the operation that a word and its columns say.
#[inline(always)]
pub(crate) fn op_of(word: Word, columns: Columns<u64>) -> Op
    requires { AreKept word columns }
    ensures op { result ≡ op_of word columns }
    ensures rules { IsValid result × FitsOp result }
{
    match word {
        Word::Put => Op::Put {
            id: columns.id,
            at: point_of(columns.x, columns.y),
            moment: columns.moment,
        },
        Word::Move => Op::Move {
            id: columns.id,
            at: point_of(columns.x, columns.y),
            moment: columns.moment,
        },
        Word::Drop => Op::Remove { id: columns.id },
        Word::Where => Op::Find { id: columns.id },
        Word::Box => Op::Within {
            region: Region {
                lo: point_of(columns.x, columns.y),
                hi: point_of(columns.a, columns.b),
            },
        },
        Word::Near => Op::Near {
            at: point_of(columns.x, columns.y),
            k: columns.a as u32,
        },
    }
}

/// Returns the point with these coordinates.
#[inline(always)]
pub fn point_of(x: u64, y: u64) -> Point
    requires x { x < 2 ^ 32 }
    requires y { y < 2 ^ 32 }
    ensures { result ≡ record { x = x; y = y } }
{
    Point {
        x: x as u32,
        y: y as u32,
    }
}

/// Returns the word of an operation.
pub(crate) fn word_by(op: &Op) -> Word
    ensures { result ≡ word_by op.now }
{
    match op {
        Op::Put { .. } => Word::Put,
        Op::Move { .. } => Word::Move,
        Op::Remove { .. } => Word::Drop,
        Op::Find { .. } => Word::Where,
        Op::Within { .. } => Word::Box,
        Op::Near { .. } => Word::Near,
    }
}

/// Returns the columns of an operation after its word. A column that stays empty is 0.
pub(crate) fn columns_of(op: &Op) -> Columns<u64>
    ensures { result ≡ columns_of op.now }
{
    match *op {
        Op::Put { id, at, moment } | Op::Move { id, at, moment } => columns_at(
            id, at, 0, 0, moment,
        ),
        Op::Remove { id } | Op::Find { id } => columns_at(id, ORIGIN, 0, 0, 0),
        Op::Within { region } => columns_at(
            0,
            region.lo,
            u64::from(region.hi.x),
            u64::from(region.hi.y),
            0,
        ),
        Op::Near { at, k } => columns_at(0, at, u64::from(k), 0, 0),
    }
}

const ORIGIN: Point = Point { x: 0, y: 0 };

fn columns_at(id: u64, at: Point, a: u64, b: u64, moment: u64) -> Columns<u64>
    ensures { result ≡ record { id = id; x = at.x; y = at.y; a = a; b = b; moment = moment } }
{
    Columns {
        id,
        x: u64::from(at.x),
        y: u64::from(at.y),
        a,
        b,
        moment,
    }
}
