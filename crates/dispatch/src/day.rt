//! A day of the taxi company.
ghost use Rattle.std.specs.Prelude.{◌≡◌, IfSome, vec_len};

use crate::callers::Caller;
use crate::map::{AROUND, nearest_free};
use crate::town::{DISPATCHER, STATION, TAKEN, WAITING};
use pisrakun::{Index, Memory, MemoryStore, Placed, PlacedList, View};
use std::alloc::Global;
use std::sync::Wait;
use std::thread::Threads;

/// The result of a day.
#[derive(Drop)]
pub struct Day<I: Index> {
    pub callers: Vec<Caller>,
    pub evening: Evening<I>,
}

/// What the dispatcher sees at the end of a day.
#[derive(Drop)]
pub struct Evening<I: Index> {
    /// All taxis as they are then. The view stays when the store has ended.
    pub view: View<I>,
    /// The taxis around the station.
    pub around: PlacedList,
    /// The free taxi that is nearest to the station.
    pub free: Option<Placed>,
}

/// Plays a day on a store, and closes it. Returns `None` if memory runs out.
pub fn play_day<I: Index + Send, R: Threads + Wait + AllocGlobal + Sync>(
    rt: &R,
    mut taxis: MemoryStore<I>,
) -> Option<Day<I>> {
    taxis.set_session(DISPATCHER);
    let day = call_all_day(rt, &mut taxis);
    let _ = taxis.settle(rt);
    taxis.close();
    let (callers, evening) = day?;
    Some(Day { callers, evening })
}

// Three drivers and the dispatcher.
fn callers(alloc: Global) -> Option<Vec<Caller>>
    ensures { IfSome result (λ callers. vec_len callers ≡ 4) }
{
    let callers = [
        Caller::new(1),
        Caller::new(2),
        Caller::new(3),
        Caller::new(DISPATCHER),
    ];
    Vec::from_array(alloc, callers).ok()
}

// All sessions call at once. After them the dispatcher looks once more.
fn call_all_day<I: Index + Send, R: Threads + Wait + AllocGlobal + Sync>(
    rt: &R,
    taxis: &mut MemoryStore<I>,
) -> Option<(Vec<Caller>, Evening<I>)> {
    let alloc = rt.alloc();
    let _ = taxis.put(rt, TAKEN.id, TAKEN.at, 0);
    let _ = taxis.put(rt, WAITING.id, WAITING.at, 0);
    let callers = taxis.work_all(rt, 1, callers(alloc)?).ok()?;
    let view = taxis.view(rt).ok()?;
    Some((callers, evening_of(alloc, view).ok()?))
}

// What the dispatcher sees in a view.
fn evening_of<I: Index>(alloc: Global, view: View<I>) -> Result<Evening<I>, Memory> {
    let around = view.within(alloc, &AROUND)?;
    let free = nearest_free(alloc, &view, STATION)?;
    Ok(Evening { view, around, free })
}

impl<I: Index> Day<I> {
    /// How many calls there were.
    pub fn calls(&self) -> u64 {
        self.evening.view.place()
    }
}
