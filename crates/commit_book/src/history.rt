//! The entries of a run. Their list is kept, with memory for those that are promised, or only their counts are.
ghost use Rattle.std.specs.Prelude.{◌≡◌, ◌+◌, ◌-◌, ◌<◌, ◌≤◌, ◌∷◌, ◌++◌, ◌^◌, true, false, [], if◌then◌else◌, OnOk, OnErr, length, vec_len, vec_capacity};
ghost use Rattle.plain_list.specs.History.{call_count};
ghost use Rattle.plain_list.specs.Batch.{batch_calls};
ghost use Rattle.commit_book.specs.Answers.{is_ask, is_still, is_still_since};
ghost use Rattle.commit_book.specs.Events.{with_entry, with_entries};
ghost use Rattle.commit_book.specs.BatchSteps.{flagged_fails};
ghost use Rattle.commit_book.specs.BookView.{list_in};
ghost use Rattle.commit_book.specs.IsBook.{most_events};

use kept_log::Past;
use plain_list::{Entry, Lost, Op};
use std::alloc::{AllocError, Global};
use std::marker::Model;

/// The most entries of a history whose list is kept.
pub const MOST_EVENTS: u64 = 4_194_304;

/// The most entries of a history whose list isn't kept.
pub const MOST_EVENTS_UNLISTED: u64 = 1 << 60;

/// The entries, and how many more fit without taking memory.
#[derive(Drop)]
pub(crate) struct History {
    /// Whether the list of the entries is kept.
    kept: bool,
    /// The entries if their list is kept, and else none.
    list: Vec<Entry>,
    /// How many entries there are.
    len: usize,
    /// How many of them are calls.
    calls: u64,
    /// The number of the last entry that may have changed the world, from 1, or 0 if there is none.
    changed: usize,
    room: usize,
    past: Past,
}

impl Model for History {
    ghost use Rattle.commit_book.specs.Events.{Events};

    ghost Value = { Events };

    ghost use Rattle.commit_book.specs.History.{events_of, IsHistory};

    ghost view = { events_of };

    ghost invariant = { IsHistory };
}

impl History {
    /// No entries. `kept` says whether the list of the later ones is kept.
    pub(crate) fn empty(alloc: Global, kept: bool) -> History
        ensures { result ≡ record { entries = []; room = 0; kept = kept } }
    {
        History {
            kept,
            list: Vec::new(alloc),
            len: 0,
            calls: 0,
            changed: 0,
            room: 0,
            past: Past::new(),
        }
    }

    /// Keeps no list of the entries from now on. Then no entry takes memory.
    pub(crate) fn keep_no_list(&mut self)
        requires { self.old.entries ≡ [] }
        ensures { self.new ≡ record self.old { kept = false } }
    {
        self.kept = false;
    }

    pub(crate) fn len(&self) -> usize
        ensures { result ≡ length self.now.entries }
    {
        self.len
    }

    /// Whether the list of the entries is kept.
    pub(crate) fn is_kept(&self) -> bool
        ensures { result ≡ self.now.kept }
    {
        self.kept
    }

    /// The most entries of a history of this kind.
    pub(crate) fn most(&self) -> u64
        ensures { result ≡ most_events self.now.kept }
    {
        if self.kept {
            MOST_EVENTS
        } else {
            MOST_EVENTS_UNLISTED
        }
    }

    /// All entries, for contracts alone.
    pub(crate) fn past(&self) -> Past
        ensures { result.entries ≡ self.now.entries }
    {
        Past::same(&self.past)
    }

    /// How many entries are calls.
    pub(crate) fn calls(&self) -> u64
        ensures { result ≡ call_count self.now.entries }
    {
        self.calls
    }

    /// Whether each entry after the first `events` leaves every world unchanged.
    pub(crate) fn is_still_since(&self, events: usize) -> bool
        ensures { result ≡ is_still_since events self.now.entries }
    {
        self.changed <= events
    }

    /// Makes room for this many more entries. Without a list it always succeeds.
    pub(crate) fn reserve(&mut self, entries: usize) -> Result<(), AllocError>
        requires { length self.old.entries + entries < 2 ^ 63 }
        ensures ok { OnOk result (self.new ≡ record self.old { room = entries }) }
        ensures err { OnErr result (self.new ≡ self.old) }
        ensures listed { OnErr result (self.old.kept ≡ true) }
    {
        if self.kept {
            self.list.reserve(entries)?;
        }
        self.room = entries;
        Ok(())
    }

    /// Tries to take memory for this many more entries at once. If memory is short, nothing happens.
    pub(crate) fn make_room(&mut self, entries: usize)
        ensures { self.new ≡ self.old }
    {
        if self.kept {
            let _ = self.list.reserve(entries);
        }
    }

    /// Appends an entry, which uses one place of the room.
    pub(crate) fn push(&mut self, entry: Entry)
        requires room { 0 < self.old.room }
        requires few { length self.old.entries < 2 ^ 63 }
        ensures { self.new ≡ with_entry entry self.old }
    {
        self.room -= 1;
        self.len += 1;
        self.calls += calls_in(&entry);
        if !is_still(&entry) {
            self.changed = self.len;
        }
        self.past = Past::with(&self.past, &entry);
        if self.kept {
            push_within(&mut self.list, entry);
        }
    }

    /// Appends the calls of a batch, each of which uses one place of the room. The first has this row, and each of the
    /// others the next one.
    pub(crate) fn push_calls(&mut self, session: u8, row: u32, ops: &[Op])
        requires room { length ops.now ≤ self.old.room }
        requires few { length self.old.entries + length ops.now < 2 ^ 63 }
        requires rows { row + length ops.now ≤ 2 ^ 32 }
        ensures { self.new ≡ with_entries (batch_calls session row ops.now) self.old }
    {
        for (i, op) in ops.iter().enumerate() {
            self.push(Entry::Call {
                session,
                row: row + i as u32,
                op: *op,
            });
        }
    }

    /// Appends the failed appends of a batch, one for each operation that would have changed the world. `cell` is the
    /// number of the batch's first record.
    pub(crate) fn push_fails(
        &mut self,
        cell: u64,
        session: u8,
        row: u32,
        ops: &[Op],
        changes: &[bool],
    )
        requires lengths { length changes.now ≡ length ops.now }
        requires room { length ops.now ≤ self.old.room }
        requires few { length self.old.entries + length ops.now < 2 ^ 63 }
        requires rows { row + length ops.now ≤ 2 ^ 32 }
        ensures { self.new ≡ with_entries (flagged_fails cell session row changes.now ops.now) self.old }
    {
        for (i, op) in ops.iter().enumerate() {
            let lost = Lost::Call {
                session,
                row: row + i as u32,
                op: *op,
            };
            self.push_if(changes[i], Entry::Fail { cell, lost });
        }
    }

    // Appends an entry under a condition.
    fn push_if(&mut self, condition: bool, entry: Entry)
        requires room { 0 < self.old.room }
        requires few { length self.old.entries < 2 ^ 63 }
        ensures { self.new ≡ with_entries (if condition then entry ∷ [] else []) self.old }
    {
        if condition {
            self.push(entry);
        }
    }

    /// The list of the entries, which is empty if it wasn't kept.
    pub(crate) fn into_entries(self) -> Vec<Entry>
        ensures { result.items ≡ list_in self.kept self.entries }
    {
        self.list
    }
}

// 1 for a call, and 0 for any other entry.
fn calls_in(entry: &Entry) -> u64
    ensures { result ≡ call_count (entry.now ∷ []) }
{
    match entry {
        Entry::Call { .. } => 1,
        Entry::Begin { .. } => 0,
        Entry::Install { .. } => 0,
        Entry::Abandon { .. } => 0,
        Entry::Fail { .. } => 0,
    }
}

// Whether an entry leaves every world unchanged: a query, a find, or a step of a split.
fn is_still(entry: &Entry) -> bool
    ensures { result ≡ is_still entry.now }
{
    match entry {
        Entry::Call { op, .. } => is_ask(op),
        _ => true,
    }
}

pub(crate) fn is_ask(op: &Op) -> bool
    ensures { result ≡ is_ask op.now }
{
    matches!(op, Op::Find { .. } | Op::Within { .. } | Op::Near { .. })
}

// Pushes an entry into memory that is already there.
fn push_within(entries: &mut Vec<Entry>, entry: Entry)
    requires { vec_len entries.old < vec_capacity entries.old }
    ensures items { entries.new.items ≡ entries.old.items ++ entry ∷ [] }
    ensures capacity { vec_capacity entries.old ≤ vec_capacity entries.new }
{
    // The checker needs each type inside an entry to be named where an entry moves into a vector.
    let _lost: Option<Lost> = None;
    let _ = entries.push(entry);
}
