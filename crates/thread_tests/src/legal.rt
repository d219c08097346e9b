//! Whether a history is legal with the answers of its rows.
use plain_list::{Answer, Call, Entries, Entry, Stamped, World, is_legal};
use std::alloc::Global;
use std::process::Abort;
use zorder::Memory;

/// The answer to a put, a move or a find.
#[derive(Clone, Copy)]
pub enum Told {
    Done,
    Present(Stamped),
    Moved(Stamped),
    Stale(Stamped),
    Absent,
}

fn answer(told: Told) -> Answer {
    match told {
        Told::Done => Answer::Done,
        Told::Present(kept) => Answer::Present(kept),
        Told::Moved(kept) => Answer::Moved(kept),
        Told::Stale(kept) => Answer::Stale(kept),
        Told::Absent => Answer::Absent,
    }
}

// The answer of a row. The list has the first row's answer at its head.
fn told_of(told: &[Told], row: u32) -> Option<Told> {
    let place = (row as usize).checked_sub(1)?;
    told.get(place).copied()
}

// The calls of a history, in its order.
fn calls_of(rt: &impl Abort, alloc: Global, events: &Entries, told: &[Told]) -> Vec<Call> {
    let mut calls = Vec::new(alloc);
    for entry in events.as_slice() {
        if let Some(call) = call_of(entry, told) {
            calls.push(call).expect(rt, "no memory");
        }
    }
    calls
}

fn call_of(entry: &Entry, told: &[Told]) -> Option<Call> {
    match *entry {
        Entry::Call { session, row, op } => Some(Call {
            session,
            row,
            op,
            answer: answer(told_of(told, row)?),
        }),
        _ => None,
    }
}

/// Whether the calls of a history over no objects have these answers, if one plain list makes them in its order.
pub fn is_legal_with(
    rt: &impl Abort,
    alloc: Global,
    events: &Entries,
    told: &[Told],
) -> Result<bool, Memory> {
    let calls = calls_of(rt, alloc, events, told);
    is_legal(alloc, &World::empty(alloc), calls.as_slice())
}
