//! A lock around a sheet of entries. The tests show what one pass adds, what it passes on to another pass, and what
//! threads add at the same time. The threads are prompt or of a batch, and some sleep at the lock. If one of them isn't
//! woken, it sleeps for ever and the test times out.
ghost use Rattle.std.specs.Prelude.{◌≡◌, ℕ, ◌+◌, ◌<◌, ◌≤◌, ◌++◌, [], ◌∷◌, false, MatchBool};
ghost use Rattle.std.specs.Thread.{IsSync};
ghost use Rattle.plain_list.specs.declared.entries.Entry.{Entry};
ghost use Rattle.book_lock.specs.Ends.{EndsSplit};
ghost use Rattle.store_client.specs.Caller.{IsFree, KeepsPass};
ghost use Rattle.thread_tests.specs.Passes.{HasAdded};

use book_lock::{BookLock, Held, Pass};
use plain_list::{Entry, Lost, Op};
use std::alloc::Global;
use std::process::Abort;
use std::rt::Clock;
use std::sync::Wait;
use std::thread::{self, Threads, join_mut};
use std::time::Duration;

#[derive(Drop)]
struct Sheet {
    entries: Vec<Entry>,
    bucket: u64,
    is_slow: bool,
}

// What the sessions do. Each adds `rows` rows, and each time sleeps for `asleep` while it holds the lock. The first
// `of_batch` sessions are of a batch.
#[derive(Clone, Copy)]
struct Plan {
    sessions: u8,
    of_batch: u8,
    rows: u32,
    asleep: Duration,
    is_slow: bool,
}

impl Held for Sheet {
    ghost use Rattle.plain_list.specs.declared.entries.Entry.{Entry};
    ghost use Rattle.book_lock.specs.Rule.{no_origin};

    ghost entries = { λ s. s.entries.items };

    ghost origin = { λ s. record no_origin { bucket = s.bucket } };

    fn events(&self) -> u64 {
        self.entries.len() as u64
    }

    fn is_slow(&self) -> bool {
        self.is_slow
    }
}

impl Sheet {
    fn push(&mut self, entry: Entry) -> bool
        ensures entries { MatchBool result
            (self.new.entries.items ≡ self.old.entries.items ++ entry ∷ []) (self.new.entries.items ≡ self.old.entries.items) }
        ensures same { self.new.bucket ≡ self.old.bucket }
    {
        // Unless `Lost` is named too, the checker can't make its plan for an entry.
        let _: Option<Lost> = None;
        self.entries.push(entry).is_ok()
    }
}

fn new_lock(rt: &impl Abort, alloc: Global, is_slow: bool) -> (BookLock<Sheet>, Pass<Sheet>)
    ensures lock { (result.1.lock ≡ result.0) × (result.1.holds ≡ false) }
    ensures pass { (result.1.seen ≡ []) × (result.1.own ≡ []) × (result.1.parts ≡ 65536) }
{
    let sheet = Sheet {
        entries: Vec::new(alloc),
        bucket: 4,
        is_slow,
    };
    let Ok(made) = BookLock::new(alloc, sheet) else {
        rt.panic("no lock is made")
    };
    made
}

fn find(session: u8, row: u32) -> Entry
    ensures { (n : ℕ) → ¬ EndsSplit result n }
{
    Entry::Call {
        session,
        row,
        op: Op::Find { id: 7 },
    }
}

fn failed() -> Entry
    ensures { (n : ℕ) → ¬ EndsSplit result n }
{
    Entry::Fail {
        cell: 0,
        lost: Lost::Install { number: 1 },
    }
}

// Holds the lock for as long as others are to wait for it.
fn stay<R: Clock>(rt: &R, asleep: Duration) {
    if !asleep.is_zero() {
        thread::sleep(rt, asleep);
    }
}

// Adds an entry to the sheet and to the history. The pass has seen it last then, and owns its position.
fn add<R: Wait + Clock>(
    rt: &R,
    lock: &BookLock<Sheet>,
    pass: &mut Pass<Sheet>,
    entry: Entry,
    asleep: Duration,
) -> bool
    requires pass { IsFree lock.now pass.old }
    requires plain { (n : ℕ) → ¬ EndsSplit entry n }
    ensures same { KeepsPass pass.old pass.new }
    ensures added { MatchBool result (HasAdded entry pass.old pass.new) (pass.new.own ≡ pass.old.own) }
{
    let mut sheet = lock.take(rt, pass);
    let pushed = sheet.push(entry);
    if pushed {
        lock.note(pass, &sheet);
    }
    stay(rt, asleep);
    lock.put_back(pass, sheet);
    pushed
}

fn is_the_find(entries: &[Entry]) -> bool {
    matches!(
        entries,
        [Entry::Call {
            session: 1,
            row: 1,
            op: Op::Find { id: 7 }
        }]
    )
}

fn is_the_fail(entries: &[Entry]) -> bool {
    matches!(
        entries,
        [Entry::Fail {
            cell: 0,
            lost: Lost::Install { number: 1 }
        }]
    )
}

fn comes_back<R: Wait + Clock + Abort>(rt: &R, alloc: Global) {
    let (lock, mut pass) = new_lock(rt, alloc, true);
    let added = add(rt, &lock, &mut pass, find(1, 1), Duration::ZERO);
    let sheet = lock.close(pass);
    assert_is!(rt; added);
    assert_is!(rt; is_the_find(sheet.entries.as_slice()));
}

#[test]
fn one_find_comes_back(rt: HostRuntime) {
    comes_back(&rt, rt.alloc());
}

fn is_told_to_the_first<R: Wait + Clock + Abort>(rt: &R, alloc: Global) {
    let (lock, mut first) = new_lock(rt, alloc, true);
    let mut second = lock.split_pass(&mut first);
    let added = add(rt, &lock, &mut second, failed(), Duration::ZERO);
    lock.meet(&mut second, &mut first);
    lock.join_pass(&mut first, second);
    let sheet = lock.close(first);
    assert_is!(rt; added);
    assert_is!(rt; is_the_fail(sheet.entries.as_slice()));
}

#[test]
fn a_fail_of_a_second_pass_is_told_to_the_first(rt: HostRuntime) {
    is_told_to_the_first(&rt, rt.alloc());
}

// Adds the entries of one session.
fn add_rows<R: Wait + Clock>(
    rt: &R,
    lock: &BookLock<Sheet>,
    pass: &mut Pass<Sheet>,
    session: u8,
    plan: Plan,
)
    requires { IsFree lock.now pass.old }
    ensures { KeepsPass pass.old pass.new }
{
    pass.in_batch(session < plan.of_batch);
    for row in 0..plan.rows {
        add(rt, lock, pass, find(session, row), plan.asleep);
    }
}

// Each session up to this one adds its entries, all at the same time.
fn add_all<R: Threads + Wait + Clock + Sync>(
    rt: &R,
    lock: &BookLock<Sheet>,
    pass: &mut Pass<Sheet>,
    session: u8,
    plan: Plan,
)
    requires pass { IsFree lock.now pass.old }
    requires parts { session + 1 ≤ pass.old.parts }
    ensures { KeepsPass pass.old pass.new }
{
    if session == 0 {
        add_rows(rt, lock, pass, 0, plan);
        return;
    }
    let mut mine = lock.split_pass(pass);
    join_mut(
        rt,
        &mut ||
            requires { IsSync R.row × (0 < session) × IsFree lock.now pass.now × (session ≤ pass.now.parts) }
            ensures { KeepsPass pass.entry.now pass.exit.now }
        { add_all(rt, lock, pass, session - 1, plan) },
        &mut ||
            requires { IsSync R.row × IsFree lock.now mine }
            ensures { KeepsPass mine.entry mine.exit }
        { add_rows(rt, lock, &mut mine, session, plan) },
    );
    lock.join_pass(pass, mine);
}

// Whether each of so many sessions has so many rows, in order, and no other session has one.
fn are_in_order(entries: &[Entry], sessions: usize, rows: u32) -> bool {
    let mut next = [0; 9];
    for entry in entries {
        let Entry::Call {
            session,
            row,
            op: _,
        } = *entry
        else {
            return false;
        };
        let place = session as usize;
        if place >= 9 || next[place] != row {
            return false;
        }
        next[place] = row.saturating_add(1);
    }
    next.iter().take(sessions).all(|&count| count == rows)
        && entries.len() == sessions.saturating_mul(rows as usize)
}

// The sessions add their rows at the same time. All rows are in one history, and the lock is closed.
fn each_entry_comes<R: Threads + Wait + Clock + Abort + Sync>(rt: &R, alloc: Global, plan: Plan)
    requires { 1 ≤ plan.sessions }
{
    let (lock, mut pass) = new_lock(rt, alloc, plan.is_slow);
    add_all(rt, &lock, &mut pass, plan.sessions - 1, plan);
    let sheet = lock.close(pass);
    assert_is!(rt; are_in_order(sheet.entries.as_slice(), plan.sessions as usize, plan.rows));
}

// Sessions that take a quick value, all of them prompt.
fn prompt(sessions: u8, rows: u32, asleep: Duration) -> Plan
    ensures { result.sessions ≡ sessions }
{
    Plan {
        sessions,
        of_batch: 0,
        rows,
        asleep,
        is_slow: false,
    }
}

// Sessions that take a slow value.
fn slow(sessions: u8, rows: u32, asleep: Duration) -> Plan
    ensures { result.sessions ≡ sessions }
{
    Plan {
        is_slow: true,
        ..prompt(sessions, rows, asleep)
    }
}

// Sessions that take a quick value. The first of them are of a batch.
fn mixed(sessions: u8, of_batch: u8, rows: u32, asleep: Duration) -> Plan
    ensures { result.sessions ≡ sessions }
{
    Plan {
        of_batch,
        ..prompt(sessions, rows, asleep)
    }
}

#[test]
fn eight_threads_add_to_one_history(rt: HostRuntime) {
    each_entry_comes(&rt, rt.alloc(), slow(8, 1_000, Duration::ZERO));
}

#[test]
fn a_thread_sleeps_while_another_holds_the_lock(rt: HostRuntime) {
    each_entry_comes(&rt, rt.alloc(), slow(2, 500, Duration::from_millis(1)));
}

#[test]
fn eight_threads_sleep_while_a_ninth_holds_the_lock(rt: HostRuntime) {
    each_entry_comes(&rt, rt.alloc(), slow(9, 1_000, Duration::from_millis(1)));
}

#[test]
fn prompt_callers_that_sleep_are_woken_by_holders_that_call_no_more(rt: HostRuntime) {
    for _ in 0..20 {
        each_entry_comes(&rt, rt.alloc(), prompt(9, 1, Duration::from_millis(1)));
    }
}

#[test]
fn a_prompt_caller_that_sleeps_is_woken_by_one_of_a_batch(rt: HostRuntime) {
    for _ in 0..50 {
        each_entry_comes(&rt, rt.alloc(), mixed(2, 1, 1, Duration::from_millis(1)));
    }
}

#[test]
fn prompt_callers_and_ones_of_a_batch_add_to_one_history(rt: HostRuntime) {
    each_entry_comes(&rt, rt.alloc(), mixed(8, 4, 1_250, Duration::ZERO));
}

#[test]
fn a_lock_is_closed_after_all_have_slept(rt: HostRuntime) {
    each_entry_comes(&rt, rt.alloc(), prompt(8, 50, Duration::from_micros(200)));
}
