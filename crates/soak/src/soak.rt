//! Rounds of calls: all threads at once, and then a check of their answers.
ghost use Rattle.std.specs.Prelude.{◌≡◌, IfOk, IfSome, vec_len};
ghost use Rattle.soak.specs.Whole.{IsWhole};

use crate::judge::Judge;
use crate::last::look_at_all;
use crate::plan::Plan;
use crate::soaker::Soaker;
use crate::trouble::Trouble;
use crate::views::{Views, view_of};
use book_lock::Pass;
use disk_trait::LogDisk;
use index_layer::Index;
use index_view::View;
use sessions::{SharedBook, Start, Store};
use std::alloc::Global;
use std::io::Print;
use std::marker::Brand;
use std::rt::Clock;
use std::sync::Wait;
use std::thread::Threads;
use std::time::Instant;
use store_client::{Client, Work};
use store_file::{NotRotated, OverFile, Rotated, rotate_anew, rotate_store};

/// A pass of the store, over any index, and any drive for a log.
pub type SoakPass<I, D, O> = Pass<SharedBook<I, D, O>>;

/// The leaves with which a store continues in the other file.
#[derive(Clone, Copy)]
pub enum Leaves {
    Kept,
    Anew,
}

impl Leaves {
    /// The leaves of a rotation: new ones each second time.
    pub fn of_turn(turn: u64) -> Leaves {
        if turn % 2 == 0 {
            Leaves::Kept
        } else {
            Leaves::Anew
        }
    }

    // The words for them in the line of a rotation.
    fn word(self) -> &'static str {
        match self {
            Leaves::Kept => "",
            Leaves::Anew => ", leaves anew",
        }
    }
}

/// The session of the thread that starts the others, and looks up all objects.
pub const LAST: u8 = 4;

// The threads, before their calls, if there is memory for them.
fn crew_of(alloc: Global, plan: Plan) -> Option<Vec<Soaker>>
    ensures { IfSome result (λ all. vec_len all ≡ 4) }
{
    let crew = [
        Soaker::new(alloc, plan, 0),
        Soaker::new(alloc, plan, 1),
        Soaker::new(alloc, plan, 2),
        Soaker::new(alloc, plan, 3),
    ];
    Vec::from_array(alloc, crew).ok()
}

/// All calls of a run over an empty store in memory, and then a look at all objects.
pub fn play<I: Index + Send, D: LogDisk + Send, R: Threads + Wait + Sync>(
    rt: &R,
    alloc: Global,
    store: Store<I, D, Brand>,
    mut pass: SoakPass<I, D, Brand>,
    plan: Plan,
) -> Result<Judge, Trouble>
    requires { IsWhole store pass }
{
    let mut crew = crew_of(alloc, plan);
    let mut judge = Judge::new(alloc);
    let mut views = Views::new(alloc);
    let mut done = Ok(false);
    for _ in 0..u64::MAX {
        if !matches!(done, Ok(false)) {
            break;
        }
        let back = play_round(rt, alloc, &store, pass, &mut crew);
        let (view, back) = view_of(rt, alloc, &store, back);
        pass = back;
        let told = look(alloc, &mut judge, &mut crew);
        done = look_at_views(&mut views, view, &mut judge, told);
    }
    end(rt, alloc, store, pass, &judge, done)?;
    Ok(judge)
}

/// The same over an empty store in one of two files. It continues in the other file after each round, and that is
/// printed.
pub fn play_over_files<
    I: Index + Send,
    D: LogDisk + Send,
    R: Threads + Wait + Sync + Clock + Print,
>(
    rt: &R,
    alloc: Global,
    mut store: Store<I, D, OverFile>,
    mut pass: SoakPass<I, D, OverFile>,
    mut spare: D,
    plan: Plan,
) -> Result<Judge, Trouble>
    requires { IsWhole store pass }
{
    let mut crew = crew_of(alloc, plan);
    let mut judge = Judge::new(alloc);
    let mut views = Views::new(alloc);
    for turn in 0..u64::MAX {
        let back = play_round(rt, alloc, &store, pass, &mut crew);
        let (view, back) = view_of(rt, alloc, &store, back);
        let Rotated {
            store: next,
            pass: whole,
            spare: left,
        } = rotate_and_tell(rt, alloc, store, back, spare, Leaves::of_turn(turn))?;
        store = next;
        pass = whole;
        spare = left;
        let told = look(alloc, &mut judge, &mut crew);
        let done = look_at_views(&mut views, view, &mut judge, told);
        judge.begin_again();
        match done {
            Ok(false) => {}
            done => {
                end(rt, alloc, store, pass, &judge, done)?;
                return Ok(judge);
            }
        }
    }
    end(rt, alloc, store, pass, &judge, Ok(false))?;
    Ok(judge)
}

// Prints how long it took to rotate a store.
fn tell_turn(rt: &(impl Clock + Print), begun: Option<Instant>, leaves: &str) {
    if let Some(took) = begun.and_then(|begun| begun.elapsed(rt).ok()) {
        let micros = took.as_micros();
        let _ = println!(rt; "turn {micros} microseconds{leaves}");
    }
}

// Checks a round that has ended, and returns whether all calls were made.
fn look(alloc: Global, judge: &mut Judge, crew: &mut Option<Vec<Soaker>>) -> Result<bool, Trouble>
    requires { IfSome crew.old (λ all. vec_len all ≡ 4) }
    ensures { IfSome crew.new (λ all. vec_len all ≡ 4) }
{
    let Some(crew) = crew else {
        return Err(Trouble::Memory);
    };
    if let Some(fault) = crew.iter().find_map(|soaker| soaker.fault) {
        return Err(Trouble::Refused(fault));
    }
    judge.judge(crew)?;
    for soaker in crew.iter_mut() {
        // The memory of a long round isn't kept for the next one.
        soaker.replies = Vec::new(alloc);
    }
    Ok(crew.iter().all(|soaker| soaker.left == 0))
}

// Compares the views, if nothing is wrong so far.
fn look_at_views<I: Index>(
    views: &mut Views<I>,
    view: Option<View<I>>,
    judge: &mut Judge,
    done: Result<bool, Trouble>,
) -> Result<bool, Trouble> {
    let is_done = done?;
    views.look(view, judge)?;
    Ok(is_done)
}

// Looks up all objects, if nothing is wrong so far, and closes the store.
fn end<I: Index, D: LogDisk, O: Start, R: Wait>(
    rt: &R,
    alloc: Global,
    store: Store<I, D, O>,
    pass: SoakPass<I, D, O>,
    judge: &Judge,
    done: Result<bool, Trouble>,
) -> Result<(), Trouble>
    requires { IsWhole store pass }
{
    let mut client = Client::new(&store, alloc, pass, LAST);
    let told = match done {
        Ok(_) => look_at_all(rt, &mut client, judge),
        Err(trouble) => Err(trouble),
    };
    let pass = client.into_pass();
    store.close(pass);
    told
}

/// The same objects over a fresh log in the other file. Prints how long that took.
pub fn rotate_and_tell<I: Index, D: LogDisk, R: Wait + Clock + Print>(
    rt: &R,
    alloc: Global,
    store: Store<I, D, OverFile>,
    pass: SoakPass<I, D, OverFile>,
    spare: D,
    leaves: Leaves,
) -> Result<Rotated<I, D, OverFile>, Trouble>
    requires { IsWhole store pass }
    ensures { IfOk result (λ r. IsWhole r.store r.pass) }
{
    let begun = Instant::now(rt).ok();
    let rotated = rotate(rt, alloc, store, pass, spare, leaves)?;
    tell_turn(rt, begun, leaves.word());
    Ok(rotated)
}

/// The same objects over a fresh log in the other file. If the store isn't rotated, it is closed.
pub fn rotate<I: Index, D: LogDisk, R: Wait>(
    rt: &R,
    alloc: Global,
    store: Store<I, D, OverFile>,
    pass: SoakPass<I, D, OverFile>,
    spare: D,
    leaves: Leaves,
) -> Result<Rotated<I, D, OverFile>, Trouble>
    requires { IsWhole store pass }
    ensures { IfOk result (λ r. IsWhole r.store r.pass) }
{
    let rotated = match leaves {
        Leaves::Kept => rotate_store(rt, alloc, store, pass, spare),
        Leaves::Anew => rotate_anew(rt, alloc, store, pass, spare),
    };
    match rotated {
        Ok(rotated) => Ok(rotated),
        Err(
            NotRotated::Kept {
                store,
                pass,
                spare: _,
                cause,
            },
        ) => {
            store.close(pass);
            Err(Trouble::NotRotated(cause))
        }
        Err(NotRotated::Unsure { disk: _, spare: _ }) => Err(Trouble::SpareFailed),
        Err(NotRotated::Uncleared { book: _, disk: _ }) => Err(Trouble::NotEmptied),
        Err(NotRotated::Memory { book: _, spare: _ }) => Err(Trouble::NoLock),
    }
}

/// Runs all threads at once, until each has done its work. If memory runs out, no crew is returned.
pub fn play_round<
    I: Index + Send,
    D: LogDisk + Send,
    O: Start + Send,
    W: Work<R> + Send + Drop,
    R: Threads + Wait + Sync,
>(
    rt: &R,
    alloc: Global,
    store: &Store<I, D, O>,
    pass: SoakPass<I, D, O>,
    crew: &mut Option<Vec<W>>,
) -> SoakPass<I, D, O>
    requires pass { IsWhole store.now pass }
    requires crew { IfSome crew.old (λ all. vec_len all ≡ 4) }
    ensures pass { IsWhole store.now result }
    ensures crew { IfSome crew.new (λ all. vec_len all ≡ 4) }
{
    let Some(all) = crew.take() else {
        return pass;
    };
    let mut client = Client::new(store, alloc, pass, LAST);
    let done = client.work_all(rt, 0, all);
    let pass = client.into_pass();
    if let Ok(all) = done {
        *crew = Some(all);
    }
    pass
}
