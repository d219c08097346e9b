//! Which fences an object crosses between two positions.
ghost use Rattle.std.specs.Prelude.{◌≡◌, ◌≤◌, ◌==◌, ◌%◌, ◌/◌, true, map, List, Some, IfOk};
ghost use Rattle.fence_watch.specs.declared.fences.Fence.{Fence};
ghost use Rattle.fence_watch.specs.Fences.{most_fences, lies_in};
ghost use Rattle.fence_watch.specs.Marks.{marks_of, all_marks};
ghost use Rattle.fence_watch.specs.Passages.{turn, both, turns, word_turns, turns_of, count_turns, Charts, ShowsPassage};

use crate::fences::{Crossing, Fence};
use crate::slabs::{Slabs, Span};
use std::alloc::{AllocError, Global};
use zorder::Point;

/// A chart returns the fences that have a position. It looks up a row for each axis.
#[derive(Drop)]
pub(crate) struct Chart {
    columns: Slabs,
    lines: Slabs,
}

/// With the step of this number an object goes from one position to another. A position is `None` if the object isn't
/// there yet, or no longer.
#[derive(Clone, Copy)]
pub(crate) struct Went {
    pub(crate) at: u64,
    pub(crate) id: u64,
    pub(crate) before: Option<Point>,
    pub(crate) after: Option<Point>,
}

/// A bit for each of 64 fences: those that an object was in, and those that it is in.
#[derive(Clone, Copy)]
pub(crate) struct Pair {
    was: u64,
    is: u64,
}

impl Chart {
    pub(crate) fn new(alloc: Global, fences: &[Fence]) -> Result<Chart, AllocError>
        ensures { IfOk result (λ c. Charts fences.now c) }
    {
        let mut columns = Vec::new(alloc);
        let mut lines = Vec::new(alloc);
        for fence in fences {
            columns.push(Span {
                from: fence.region.lo.x,
                to: fence.region.hi.x,
            })?;
            lines.push(Span {
                from: fence.region.lo.y,
                to: fence.region.hi.y,
            })?;
        }
        Ok(Chart {
            columns: Slabs::new(alloc, columns)?,
            lines: Slabs::new(alloc, lines)?,
        })
    }

    /// How an object that goes from one position to another crosses each fence.
    pub(crate) fn passage(&self, before: Option<Point>, after: Option<Point>) -> [Pair; 4]
        ensures { (fences : List Fence) → Charts fences self.now → ShowsPassage before after fences result }
    {
        if let (Some(from), Some(to)) = (before, after) {
            return self.way(from, to);
        }
        pairs_of(&self.marks(before), &self.marks(after))
    }

    // From one position to another.
    fn way(&self, from: Point, to: Point) -> [Pair; 4]
        ensures { (fences : List Fence) → Charts fences self.now → ShowsPassage (Some from) (Some to) fences result }
    {
        let (column, column_behind) = self.columns.rows(from.x, to.x);
        let (line, line_behind) = self.lines.rows(from.y, to.y);
        pairs_of(&both(column, line), &both(column_behind, line_behind))
    }

    // The fences that have a position.
    fn marks(&self, place: Option<Point>) -> [u64; 4]
        ensures { (fences : List Fence) → Charts fences self.now
            → marks_of result ≡ all_marks (map (λ (f : Fence). lies_in f place) fences) }
    {
        match place {
            Some(at) => both(self.columns.row(at.x), self.lines.row(at.y)),
            None => [0, 0, 0, 0],
        }
    }
}

fn both(column: &[u64; 4], line: &[u64; 4]) -> [u64; 4]
    ensures { marks_of result ≡ both (marks_of column.now) (marks_of line.now) }
{
    [
        column[0] & line[0],
        column[1] & line[1],
        column[2] & line[2],
        column[3] & line[3],
    ]
}

fn pairs_of(was: &[u64; 4], is: &[u64; 4]) -> [Pair; 4]
    ensures { turns_of result ≡ turns (marks_of was.now) (marks_of is.now) }
{
    [
        Pair {
            was: was[0],
            is: is[0],
        },
        Pair {
            was: was[1],
            is: is[1],
        },
        Pair {
            was: was[2],
            is: is[2],
        },
        Pair {
            was: was[3],
            is: is[3],
        },
    ]
}

/// How many fences are crossed.
pub(crate) fn crossed(passage: &[Pair; 4]) -> usize
    ensures count { result ≡ count_turns (turns_of passage.now) }
    ensures few { result ≤ most_fences }
{
    passage[0].crossed() + passage[1].crossed() + passage[2].crossed() + passage[3].crossed()
}

impl Pair {
    fn crossed(self) -> usize
        ensures count { result ≡ count_turns (word_turns self) }
        ensures few { result ≤ 64 }
    {
        differing(self.was, self.is)
    }

    pub(crate) fn is_quiet(self) -> bool
        ensures { result ≡ true → self.was ≡ self.is }
    {
        self.was == self.is
    }

    /// How the first fence is crossed, if it is.
    pub(crate) fn first(self) -> Option<Crossing>
        ensures { result ≡ turn (self.was % 2 == 1) (self.is % 2 == 1) }
    {
        turn(self.was % 2 == 1, self.is % 2 == 1)
    }

    /// The same pair for the other fences.
    pub(crate) fn others(self) -> Pair
        ensures was { result.was ≡ self.was / 2 }
        ensures is { result.is ≡ self.is / 2 }
    {
        Pair {
            was: self.was / 2,
            is: self.is / 2,
        }
    }
}

fn differing(was: u64, is: u64) -> usize
    ensures count { result ≡ count_turns (word_turns (record { was = was; is = is })) }
    ensures few { result ≤ 64 }
{
    (was ^ is).count_ones() as usize
}

fn turn(was: bool, is: bool) -> Option<Crossing>
    ensures { result ≡ turn was is }
{
    match (was, is) {
        (false, true) => Some(Crossing::Enter),
        (true, false) => Some(Crossing::Leave),
        (true, true) | (false, false) => None,
    }
}
