//! A store with objects, its queries, and its threads.
ghost use Rattle.std.specs.Prelude.{◌≡◌, ◌≤◌, ◌+◌, [], IfSome, vec_len};
ghost use Rattle.plain_list.specs.World.{IsWorld};
ghost use Rattle.store_client.specs.Caller.{Keeps};

use crate::objects::fill;
use crate::plan::Plan;
use crate::queries::query_all;
use crate::reading::Reader;
use crate::trouble::Trouble;
use commit_book::Book;
use disk_trait::LogDisk;
use index_layer::Index;
use sessions::{Start, Store};
use std::alloc::Global;
use std::io;
use std::marker::Brand;
use std::rt::Clock;
use std::sync::Wait;
use std::thread::Threads;
use store_client::Client;

// The threads: so many readers, and so many writers after them.
fn team(alloc: Global, plan: Plan, readers: u8, writers: u8) -> Option<Vec<Reader>>
    requires { (readers ≤ 4) × (writers ≤ 1) }
    ensures { IfSome result (λ team. vec_len team ≡ readers + writers) }
{
    (0..readers + writers)
        .map(|number| Reader::new(plan, number, readers))
        .collect(alloc)
        .ok()
}

// Lets the threads read, and prints how many answers they had.
fn read_at_once<
    I: Index + Send,
    D: LogDisk + Send,
    O: Start + Send,
    R: Threads + Wait + AllocGlobal + Clock + Print + Sync,
>(
    rt: &R,
    client: &mut Client<'_, I, D, O>,
    plan: Plan,
    readers: u8,
    writers: u8,
) -> Result<(), Trouble>
    requires team { (readers ≤ 4) × (writers ≤ 1) }
    requires parts { 256 ≤ client.old.pass.parts }
    ensures { Keeps client.old client.new }
{
    let Some(team) = team(rt.alloc(), plan, readers, writers) else {
        return Err(Trouble::Memory);
    };
    let Ok(team) = client.work_all(rt, 0, team) else {
        return Err(Trouble::Memory);
    };
    println!(rt;
        "readers {readers}, writers {writers}, wrong answers {}",
        wrong(&team)
    )?;
    tell_rate(rt, &plan, &team)?;
    Ok(())
}

fn wrong(team: &[Reader]) -> u64 {
    let each = team.iter().map(|reader| reader.wrong);
    each.fold(0u64, |sum, more| sum.saturating_add(more))
}

// Prints how many answers a second the threads had, if times are wanted.
fn tell_rate(rt: &impl Print, plan: &Plan, team: &[Reader]) -> io::Result<()> {
    if !plan.tells_times {
        return Ok(());
    }
    let each = team.iter().map(|reader| reader.answers);
    let answers = each.fold(0u64, |sum, more| sum.saturating_add(more));
    let rate = u128::from(answers) * 1_000 / u128::from(plan.millis.max(1));
    println!(rt; "answers a second {rate}")
}

// One thread and then four, alone and beside a writer.
fn read_all<
    I: Index + Send,
    D: LogDisk + Send,
    O: Start + Send,
    R: Threads + Wait + AllocGlobal + Clock + Print + Sync,
>(rt: &R, client: &mut Client<'_, I, D, O>, plan: Plan) -> Result<(), Trouble>
    requires { 256 ≤ client.old.pass.parts }
    ensures { Keeps client.old client.new }
{
    read_at_once(rt, client, plan, 1, 0)?;
    read_at_once(rt, client, plan, 4, 0)?;
    read_at_once(rt, client, plan, 1, 1)?;
    read_at_once(rt, client, plan, 4, 1)
}

// Fills the store, and measures what the plan says.
fn measure<
    I: Index + Send,
    D: LogDisk + Send,
    O: Start + Send,
    R: Threads + Wait + AllocGlobal + Clock + Print + Sync,
>(rt: &R, client: &mut Client<'_, I, D, O>, plan: Plan) -> Result<(), Trouble>
    requires { 256 ≤ client.old.pass.parts }
    ensures { Keeps client.old client.new }
{
    fill(rt, client, &plan)?;
    if plan.has_queries {
        query_all(rt, client, &plan)?;
    }
    if plan.has_threads {
        read_all(rt, client, plan)?;
    }
    Ok(())
}

/// Measures what a plan says, over an empty store.
pub fn play<
    I: Index + Send,
    D: LogDisk + Send,
    R: Threads + Wait + AllocGlobal + Clock + Print + Sync,
>(rt: &R, book: Book<I, D>, plan: Plan) -> Result<(), Trouble>
    requires entries { book.entries ≡ [] }
    requires world { IsWorld book.opening.world }
{
    let alloc = rt.alloc();
    let Ok((store, pass)) = Store::<I, D, Brand>::new(alloc, book) else {
        return Err(Trouble::Memory);
    };
    let mut client = Client::new(&store, alloc, pass, 0);
    let done = measure(rt, &mut client, plan);
    let pass = client.into_pass();
    store.close(pass);
    done
}
