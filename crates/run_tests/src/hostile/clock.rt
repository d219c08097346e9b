//! How many records a crash leaves at each moment of the drive in a run of `play` over a log.
use crate::hostile::records::{Record, front};
use crate::hostile::runs::{images_of, must};
use crate::memory::Left;
use std::alloc::Global;
use std::process::Abort;

/// A run over a log of this width that had `first` of these records, and whether its last call failed in an append.
#[derive(Clone, Copy)]
pub struct Trial<'a> {
    pub width: u8,
    pub file: &'a [u8],
    pub first: usize,
    pub records: &'a [Record],
    pub is_closed: bool,
}

impl Trial<'_> {
    // How many moments opening has: its sync, and a cut and a sync before it if bytes follow the records.
    fn opening(&self) -> u64 {
        let whole = self.first.saturating_mul(32).saturating_add(17);
        if self.file.len() > whole { 3 } else { 1 }
    }

    // How many records a crash leaves at a moment, with this value in each free byte.
    fn records_at(&self, moment: u64, last: u64, fill: u8) -> usize {
        let Some(calls) = moment.checked_sub(self.opening()) else {
            return self.first;
        };
        let placed = self.first.saturating_add((calls / 4) as usize);
        match calls % 4 {
            // The commit byte is written, but not synced.
            3 if fill == 1 => placed.saturating_add(1),
            // Its sync failed.
            0 if self.is_closed && moment == last && fill != 1 => placed.saturating_sub(1),
            _ => placed,
        }
    }
}

/// Compares what a crash leaves at each moment of a run with the records that are there at that moment.
pub fn judge_images<R: Abort>(rt: &R, alloc: Global, trial: &Trial<'_>, left: &Left) {
    let last = left.disk.moments();
    for image in images_of(rt, alloc, left).iter() {
        let count = trial.records_at(image.moment, last, image.fill);
        let is_front = front(trial.width, image.bytes.as_slice(), trial.records) == Some(count);
        must(rt, is_front, "records at moment", image.moment);
    }
}
