//! Which of some spans have a number. The answer is looked up, without a comparison with each span.
ghost use Rattle.std.specs.Prelude.{◌≡◌, ◌≤◌, ◌<◌, ◌∷◌, ◌++◌, true, length, take, drop, IfOk, OnOk, map};
ghost use Rattle.std.specs.List.Sorted.{IsNonDecreasing, IsPermutation};
ghost use Rattle.std.specs.Simd.Lanes.{mask_l};
ghost use Rattle.fence_watch.specs.Marks.{marks_of, all_marks};
ghost use Rattle.fence_watch.specs.Slabs.{spans, row_at, own_edges, edges_of, IsSlabOf};

use crate::hints::Hints;
use std::alloc::{AllocError, Global};
use std::marker::Model;

/// The numbers from `from` to `to`, both included.
#[derive(Clone, Copy)]
pub(crate) struct Span {
    pub(crate) from: u32,
    pub(crate) to: u32,
}

impl Span {
    fn has(&self, at: u32) -> bool
        ensures { result ≡ spans at self.now }
    {
        self.from <= at && at <= self.to
    }
}

/// Spans, cut at each number where one of them begins or has ended. Nothing changes between two edges, so there is one
/// row for each edge. The row holds the spans that have the edge.
#[derive(Drop)]
pub(crate) struct Slabs {
    spans: Vec<Span>,
    edges: Vec<u32>,
    hints: Hints,
    rows: Vec<[u64; 4]>,
}

impl Model for Slabs {
    ghost use Rattle.std.specs.Prelude.{List};
    ghost use Rattle.fence_watch.specs.declared.slabs.Span.{Span};
    ghost use Rattle.fence_watch.specs.Slabs.{TellSpans};

    ghost Value = { List Span };

    ghost view = { λ s. s.spans.items };

    ghost invariant = { λ s. TellSpans s.spans.items s.edges.items s.rows.items };
}

impl Slabs {
    pub(crate) fn new(alloc: Global, spans: Vec<Span>) -> Result<Slabs, AllocError>
        ensures { IfOk result (λ s. s ≡ spans.items) }
    {
        let edges = edges_of(alloc, &spans)?;
        let hints = Hints::new(alloc, &edges)?;
        let rows = rows_of(alloc, &edges, &spans)?;
        Ok(Slabs {
            spans,
            edges,
            hints,
            rows,
        })
    }

    /// For each span, whether it has the number.
    pub(crate) fn row(&self, at: u32) -> &[u64; 4]
        ensures { marks_of result.now ≡ all_marks (row_at at self.now) }
    {
        let slab = self.hints.slab(&self.edges, at);
        &self.rows[slab]
    }

    /// The same for two numbers. If no edge is between them, one look-up serves both, which is usual for two positions
    /// of an object.
    pub(crate) fn rows(&self, one: u32, other: u32) -> (&[u64; 4], &[u64; 4])
        ensures one { marks_of result.0.now ≡ all_marks (row_at one self.now) }
        ensures other { marks_of result.1.now ≡ all_marks (row_at other self.now) }
    {
        let slab = self.hints.slab(&self.edges, one);
        let row = &self.rows[slab];
        if has(&self.edges, slab, other) {
            (row, row)
        } else {
            (row, self.row(other))
        }
    }
}

// Whether a number is between an edge and the next one.
fn has(edges: &[u32], slab: usize, at: u32) -> bool
    requires { slab < length edges.now }
    ensures { result ≡ true → IsSlabOf edges.now at slab }
{
    edges[slab] <= at && (slab + 1 == edges.len() || at < edges[slab + 1])
}

fn edges_of(alloc: Global, spans: &[Span]) -> Result<Vec<u32>, AllocError>
    ensures sorted { IfOk result (λ edges. IsNonDecreasing edges.items) }
    ensures all { IfOk result (λ edges. IsPermutation (0 ∷ edges_of spans.now) edges.items) }
{
    let mut edges = vec![in alloc; 0]?;
    for span in spans {
        push_edges(&mut edges, span)?;
    }
    edges.sort_unstable();
    Ok(edges)
}

// No span ends after the greatest number.
fn push_edges(edges: &mut Vec<u32>, span: &Span) -> Result<(), AllocError>
    ensures { OnOk result (edges.new.items ≡ edges.old.items ++ own_edges span.now) }
{
    edges.push(span.from)?;
    if let Some(behind) = span.to.checked_add(1) {
        edges.push(behind)?;
    }
    Ok(())
}

fn rows_of(alloc: Global, edges: &[u32], spans: &[Span]) -> Result<Vec<[u64; 4]>, AllocError>
    ensures { IfOk result (λ rows. map marks_of rows.items ≡ map (λ edge. all_marks (row_at edge spans.now)) edges.now) }
{
    let mut rows = Vec::new(alloc);
    for edge in edges {
        rows.push(row_of(*edge, spans))?;
    }
    Ok(rows)
}

// A bit for each of the spans that there may be.
fn row_of(at: u32, spans: &[Span]) -> [u64; 4]
    ensures { marks_of result ≡ all_marks (row_at at spans.now) }
{
    let (first, spans) = of_one_word(spans);
    let (second, spans) = of_one_word(spans);
    let (third, spans) = of_one_word(spans);
    let (fourth, _) = of_one_word(spans);
    [
        word_of(at, first),
        word_of(at, second),
        word_of(at, third),
        word_of(at, fourth),
    ]
}

fn of_one_word(spans: &[Span]) -> (&[Span], &[Span])
    ensures front { result.0.now ≡ take 64 spans.now }
    ensures few { length result.0.now ≤ 64 }
    ensures back { result.1.now ≡ drop 64 spans.now }
{
    if spans.len() <= 64 {
        return (spans, &[]);
    }
    spans.split_at(64)
}

// The first span is the lowest bit.
fn word_of(at: u32, spans: &[Span]) -> u64
    requires { length spans.now ≤ 64 }
    ensures { result ≡ mask_l (row_at at spans.now) }
{
    let Some((span, spans)) = spans.split_first() else {
        return 0;
    };
    let others = 2 * word_of(at, spans);
    if span.has(at) { others + 1 } else { others }
}
