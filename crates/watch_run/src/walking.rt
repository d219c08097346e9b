//! A watch along the log in a file.
ghost use Rattle.std.specs.Prelude.{◌≡◌, List, MatchResult};
ghost use Rattle.fence_watch.specs.declared.fences.Fence.{Fence};
ghost use Rattle.watch_run.specs.inside.Along.{IsBegun, IsStarted, RefusesAttached, RefusesFile, RunsAlong, RunsFile, watch_refusal};

use disk_trait::LogDisk;
use fence_watch::{AlongFault, Fences, Tally, WatchFault};
use recovery::{OpenRefused, Walk, Wanted};
use run_ends::{MOST_INSPECTED, Refusal, Unmade, attach, log_refusal};
use std::alloc::Global;

/// A watch along all cells of a log, and the drive of that log.
#[derive(Drop)]
pub(crate) struct Along<D: LogDisk> {
    pub(crate) watch: Tally,
    pub(crate) disk: D,
}

/// Watches the fences along the log in a file of this name. The log has version 1 or 2.
pub(crate) fn watch_file<D: LogDisk>(
    alloc: Global,
    file: &str,
    fences: &Fences,
    mut disk: D,
) -> Result<Along<D>, Unmade<D>>
    ensures along { MatchResult result (λ a. RunsFile fences.now file.now (D.drive disk) (D.drive a.disk) a.watch)
        (λ e. RefusesFile fences.now file.now (D.drive disk) (D.drive e.disk) e.why) }
{
    if let Err(why) = attach(alloc, file, false, &mut disk) {
        return Err(Unmade { disk, why });
    }
    watch_attached(alloc, fences, disk)
}

// Watches the fences along the log in the attached file.
fn watch_attached<D: LogDisk>(
    alloc: Global,
    fences: &Fences,
    disk: D,
) -> Result<Along<D>, Unmade<D>>
    ensures along { MatchResult result (λ a. RunsAlong fences.now (D.drive disk) (D.drive a.disk) a.watch)
        (λ e. RefusesAttached fences.now (D.drive disk) (D.drive e.disk) e.why) }
{
    let wanted = Wanted {
        width: None,
        most: MOST_INSPECTED,
    };
    match Walk::along(alloc, disk, wanted) {
        Ok(walk) => watch_walk(alloc, fences, walk),
        Err(OpenRefused { disk, cause }) => {
            let why = log_refusal(cause);
            Err(Unmade { disk, why })
        }
    }
}

// The same along a walk that has begun.
fn watch_walk<D: LogDisk>(
    alloc: Global,
    fences: &Fences,
    mut walk: Walk<D>,
) -> Result<Along<D>, Unmade<D>>
    requires { IsStarted (D.drive walk.disk) walk }
    ensures along { MatchResult result (λ a. RunsAlong fences.now (D.drive walk.disk) (D.drive a.disk) a.watch)
        (λ e. RefusesAttached fences.now (D.drive walk.disk) (D.drive e.disk) e.why) }
{
    match watch_all(alloc, fences, &mut walk) {
        Ok(watch) => Ok(Along {
            watch,
            disk: walk.finish().disk,
        }),
        Err(why) => Err(Unmade {
            disk: walk.finish().disk,
            why,
        }),
    }
}

// A watch along all cells of a walk that has begun.
fn watch_all<D: LogDisk>(
    alloc: Global,
    fences: &Fences,
    walk: &mut Walk<D>,
) -> Result<Tally, Refusal>
    requires { IsStarted (D.drive walk.old.disk) walk.old }
    ensures along { MatchResult result (λ watch. RunsAlong fences.now (D.drive walk.old.disk) (D.drive walk.new.disk) watch)
        (λ why. RefusesAttached fences.now (D.drive walk.old.disk) (D.drive walk.new.disk) why) }
{
    let mut watch = Tally::new(alloc, fences)?;
    go_along(walk, &mut watch)?;
    Ok(watch)
}

// Leads a watch along all cells of a walk that has begun.
fn go_along<D: LogDisk>(walk: &mut Walk<D>, watch: &mut Tally) -> Result<(), Refusal>
    requires { (fences : List Fence) × IsBegun fences (D.drive walk.old.disk) walk.old watch.old }
    ensures along { (fences : List Fence) → IsBegun fences (D.drive walk.old.disk) walk.old watch.old
        → MatchResult result (λ _. RunsAlong fences (D.drive walk.old.disk) (D.drive walk.new.disk) watch.new)
        (λ why. RefusesAttached fences (D.drive walk.old.disk) (D.drive walk.new.disk) why) }
{
    match watch.along(walk) {
        Ok(()) => Ok(()),
        Err(AlongFault::Watch { fault, walked: _ }) => Err(watch_refusal(fault)),
        Err(AlongFault::Log(fault)) => Err(log_refusal(fault)),
    }
}

// The refusal for a fault of a watch.
fn watch_refusal(fault: WatchFault) -> Refusal
    ensures { result ≡ watch_refusal fault }
{
    match fault {
        WatchFault::TooMany => Refusal::LongEvents,
        WatchFault::Memory => Refusal::Memory,
    }
}
