//! The command `show`: lists the objects in a box of the log in a file. It only reads.
ghost use Rattle.run_ends.specs.Ends.{written_by};
ghost use Rattle.log_run.specs.Checking.{TellsLog};
ghost use Rattle.log_run.specs.Showing.{ShowsLog, shown_text};

use crate::checking::find;
use disk_trait::LogDisk;
use io_edge::Sink;
use run_ends::{Drives, Ended, put_refusal, without_rows, write_objects, written};
use std::alloc::Global;
use zorder::Region;

/// Writes the objects in the box with their moments, from the log in the file of this name, of version 1 or 2.
pub fn show_log<K: Sink, D: LogDisk>(
    alloc: Global,
    file: &str,
    region: &Region,
    sink: &mut K,
    drives: Drives<D>,
) -> Ended<D>
    ensures { ShowsLog file.now region.now (written_by K.output D.drive sink.old drives sink.new result) }
{
    let Drives { mut disk, other } = drives;
    let status = tell_objects(alloc, file, region, sink, &mut disk);
    without_rows(alloc, status, Drives { disk, other })
}

// The same on a borrowed drive; returns the status.
fn tell_objects<K: Sink, D: LogDisk>(
    alloc: Global,
    file: &str,
    region: &Region,
    sink: &mut K,
    disk: &mut D,
) -> u8
    ensures ends { TellsLog (shown_text region.now) file.now (D.drive disk.old) (D.drive disk.new) result (K.output sink.old)
        (K.output sink.new) }
{
    match find(alloc, file, disk) {
        Ok(found) => written(write_objects(sink, found.seen.world.as_slice(), region)),
        Err(why) => put_refusal(&why, sink),
    }
}
