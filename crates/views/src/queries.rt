//! The queries of one thread.
ghost use Rattle.std.specs.Prelude.{◌<◌, ◌≤◌};
ghost use Rattle.store_client.specs.Caller.{Keeps};

use crate::objects::{ALL, INNER, point_of};
use crate::plan::Plan;
use crate::trouble::Trouble;
use disk_trait::LogDisk;
use index_layer::Index;
use index_view::{View, Visit};
use sessions::Start;
use std::alloc::Global;
use std::io;
use std::rt::Clock;
use std::sync::Wait;
use std::time::Instant;
use store_client::Client;
use zorder::{Memory, Placed, Point};

// How often a query of all objects is made.
const FEW: u32 = 10;

// Adds up ids.
#[derive(Clone, Copy)]
struct Sum {
    ids: u64,
}

impl Visit for Sum {
    fn visit(&mut self, object: Placed) {
        self.ids = self.ids.wrapping_add(object.id);
    }
}

/// Makes all queries of a plan, and prints what each of them found.
pub fn query_all<I: Index, D: LogDisk, O: Start, R: Wait + AllocGlobal + Clock + Print>(
    rt: &R,
    client: &mut Client<'_, I, D, O>,
    plan: &Plan,
) -> Result<(), Trouble>
    ensures { Keeps client.old client.new }
{
    take_views(rt, client, plan)?;
    let view = client.view(rt)?;
    count_nearly_all(rt, &view, plan)?;
    visit_all(rt, &view, plan)?;
    list_all(rt, &view, plan)?;
    for k in [8, 64, 2_048] {
        find_nearest(rt, &view, plan, k)?;
    }
    Ok(())
}

// Takes views and drops each.
fn take_views<I: Index, D: LogDisk, O: Start, R: Wait + Clock + Print>(
    rt: &R,
    client: &mut Client<'_, I, D, O>,
    plan: &Plan,
) -> Result<(), Trouble>
    ensures { Keeps client.old client.new }
{
    let mut place = 0;
    let begun = Instant::now(rt).ok();
    for _ in 0..plan.repeats {
        place = client.view(rt)?.place();
    }
    println!(rt; "view after {place} calls")?;
    plan.tell_time(rt, "view", begun, u64::from(plan.repeats))?;
    Ok(())
}

fn count_nearly_all<I: Index, R: Clock + Print>(
    rt: &R,
    view: &View<I>,
    plan: &Plan,
) -> io::Result<()> {
    let mut count = 0;
    let begun = Instant::now(rt).ok();
    for _ in 0..plan.repeats {
        count = view.count(&INNER);
    }
    println!(rt; "counted {count}")?;
    plan.tell_time(rt, "count", begun, u64::from(plan.repeats))
}

fn visit_all<I: Index, R: Clock + Print>(rt: &R, view: &View<I>, plan: &Plan) -> io::Result<()> {
    let mut sum = Sum { ids: 0 };
    let begun = Instant::now(rt).ok();
    for _ in 0..FEW {
        view.for_each_in(&ALL, &mut sum);
    }
    println!(rt; "sum of visited ids {}", sum.ids)?;
    let visits = u64::from(FEW).saturating_mul(view.len());
    plan.tell_time(rt, "visit, for each object", begun, visits)
}

// Lists all objects, and reads the list.
fn list_all<I: Index, R: AllocGlobal + Clock + Print>(
    rt: &R,
    view: &View<I>,
    plan: &Plan,
) -> Result<(), Trouble> {
    let begun = Instant::now(rt).ok();
    let list = view.within(rt.alloc(), &ALL)?;
    println!(rt; "listed {}", list.as_slice().len())?;
    plan.tell_time(rt, "within, for each object", begun, view.len())?;
    let begun = Instant::now(rt).ok();
    let mut sum = Sum { ids: 0 };
    for _ in 0..FEW {
        read(list.as_slice(), &mut sum);
    }
    println!(rt; "sum of listed ids {}", sum.ids)?;
    let reads = u64::from(FEW).saturating_mul(view.len());
    plan.tell_time(rt, "reading of a list, for each object", begun, reads)?;
    Ok(())
}

fn read(list: &[Placed], sum: &mut Sum) {
    for object in list {
        sum.visit(*object);
    }
}

// Finds the nearest objects of many points, by `nearest` and by a browse, which find the same.
fn find_nearest<I: Index, R: AllocGlobal + Clock + Print>(
    rt: &R,
    view: &View<I>,
    plan: &Plan,
    k: u32,
) -> Result<(), Trouble> {
    let repeats = plan.repeats_of(k);
    let begun = Instant::now(rt).ok();
    let found = nearest_sum(rt.alloc(), view, repeats, k)?;
    println!(rt; "nearest {k}, sum of ids {}", found.ids)?;
    plan.tell_time(rt, "nearest", begun, u64::from(repeats))?;
    let begun = Instant::now(rt).ok();
    let browsed = browse_sum(rt.alloc(), view, repeats, k)?;
    println!(rt; "browse to {k}, sum of ids {}", browsed.ids)?;
    plan.tell_time(rt, "browse", begun, u64::from(repeats))?;
    Ok(())
}

fn nearest_sum<I: Index>(
    alloc: Global,
    view: &View<I>,
    repeats: u32,
    k: u32,
) -> Result<Sum, Memory> {
    let mut sum = Sum { ids: 0 };
    for number in 0..repeats {
        let found = view.nearest(alloc, point_of(!u64::from(number)), k)?;
        read(found.as_slice(), &mut sum);
    }
    Ok(sum)
}

fn browse_sum<I: Index>(
    alloc: Global,
    view: &View<I>,
    repeats: u32,
    k: u32,
) -> Result<Sum, Memory> {
    let mut sum = Sum { ids: 0 };
    for number in 0..repeats {
        browse_to(alloc, view, point_of(!u64::from(number)), k, &mut sum)?;
    }
    Ok(sum)
}

fn browse_to<I: Index>(
    alloc: Global,
    view: &View<I>,
    at: Point,
    k: u32,
    sum: &mut Sum,
) -> Result<(), Memory> {
    let mut objects = view.browse(alloc, at);
    for _ in 0..k {
        if let Some(object) = objects.next()? {
            sum.visit(object);
        }
    }
    Ok(())
}
