//! The command `watch`.
ghost use Rattle.std.specs.Prelude.{◌≡◌, []};
ghost use Rattle.run_ends.specs.Ends.{done_by, targets};
ghost use Rattle.watch_run.specs.Watching.{EndsWatching, Watches};

use crate::lines::write_watch;
use crate::reading::read_watched;
use crate::walking::{Along, watch_file};
use disk_trait::LogDisk;
use fence_watch::Fences;
use io_edge::{Sink, Source};
use run_ends::{Drives, Ended, Unmade, refuse_on, without_rows, written};
use std::alloc::Global;

/// Writes which objects enter and leave the fences of a source along the log in a file of this name, and how many are
/// inside each fence after its last cell. The log has version 1 or 2.
///
/// The order of work, and of refusals: source, length of the input, fences, attach, head of the log, its cells, lines.
/// The first line is written after all cells were walked.
pub fn watch_log<S: Source, K: Sink, D: LogDisk>(
    alloc: Global,
    file: &str,
    source: &mut S,
    sink: &mut K,
    drives: Drives<D>,
) -> Ended<D>
    ensures { Watches file.now (done_by S.input K.output D.drive source.old sink.old drives source.new sink.new result) }
{
    match read_watched(alloc, source) {
        Ok(fences) => tell_watch(alloc, file, &fences, sink, drives),
        Err(why) => refuse_on(alloc, &why, sink, drives),
    }
}

// Writes the crossings of these fences along the log in a file.
fn tell_watch<K: Sink, D: LogDisk>(
    alloc: Global,
    file: &str,
    fences: &Fences,
    sink: &mut K,
    drives: Drives<D>,
) -> Ended<D>
    ensures ends { EndsWatching fences.now file.now (targets K.output D.drive sink.old drives)
        (targets K.output D.drive sink.new result.drives) result.status }
    ensures none { result.history ≡ [] }
    ensures other { result.drives.other ≡ drives.other }
{
    let Drives { disk, other } = drives;
    match watch_file(alloc, file, fences, disk) {
        Ok(Along { watch, disk }) => {
            let status = written(write_watch(sink, &watch));
            without_rows(alloc, status, Drives { disk, other })
        }
        Err(Unmade { disk, why }) => refuse_on(alloc, &why, sink, Drives { disk, other }),
    }
}
