//! Logs that are opened, and appends to them.
use crate::memory::disk_of;
use cell_format::Cell;
use disk_mem::{Fail, MemDisk};
use disk_trait::LogDisk;
use kept_log::Journal;
use recovery::open;
use split_log::{AppendFault, SplitLog};
use std::alloc::Global;
use std::process::Abort;

/// The state of a log after an append: why that failed, the cell at which the log is closed, and how many cells there
/// are.
pub type Appended = (Option<AppendFault>, Option<u64>, u64);

/// What an append leaves: the state of the log, the bytes of the file, an image that a crash may leave now, and the
/// clock.
#[derive(Drop)]
pub struct Left {
    pub appended: Appended,
    pub bytes: Vec<u8>,
    pub image: Vec<u8>,
    pub moments: u64,
}

/// Opens the log on a drive, and appends a cell.
pub fn append_to<D: LogDisk>(
    rt: &impl Abort,
    alloc: Global,
    disk: D,
    cell: &Cell,
) -> (Appended, D) {
    let Ok(opened) = open(alloc, disk, 1, 16) else {
        rt.panic("the log isn't opened")
    };
    let mut log = opened.log;
    let fault = log.append(cell).err();
    (stands(&log, fault), log.give_back())
}

fn stands<D: LogDisk>(log: &SplitLog<D>, fault: Option<AppendFault>) -> Appended {
    (fault, log.failed(), log.cells())
}

/// Appends a cell to the log in a file with these bytes, while these calls of the drive fail. Picks the image whose
/// length is nearest to `len`, with `fill` in each free byte.
pub fn append_in(
    rt: &impl Abort,
    alloc: Global,
    bytes: &[u8],
    cell: &Cell,
    failing: &[Fail],
    len: u64,
    fill: u8,
) -> Left {
    let disk = disk_of(rt, alloc, bytes, failing);
    let (appended, disk) = append_to(rt, alloc, disk, cell);
    left_by(rt, alloc, appended, &disk, len, fill)
}

fn left_by(
    rt: &impl Abort,
    alloc: Global,
    appended: Appended,
    disk: &MemDisk,
    len: u64,
    fill: u8,
) -> Left {
    let moments = disk.moments();
    Left {
        appended,
        bytes: disk.bytes().to_vec(alloc).expect(rt, "no memory"),
        image: disk.pick(moments, len, &[fill]).expect(rt, "no image"),
        moments,
    }
}

/// What a journal returns after an append: its cells, where it is closed, and whether it is full.
pub type Kept = (u64, Option<u64>, bool);

/// The same for the log in a file with these bytes, and the length of the file then.
pub fn journal_of(rt: &impl Abort, alloc: Global, bytes: &[u8], cell: &Cell) -> (Kept, usize) {
    let disk = disk_of(rt, alloc, bytes, &[]);
    let (kept, disk) = kept_on(rt, alloc, disk, cell);
    (kept, disk.bytes().len())
}

fn kept_on<D: LogDisk>(rt: &impl Abort, alloc: Global, disk: D, cell: &Cell) -> (Kept, D) {
    let Ok(opened) = open(alloc, disk, 1, 16) else {
        rt.panic("the log isn't opened")
    };
    let mut journal = Journal::opened(opened.log, opened.start);
    assert_is!(rt; takes(&mut journal, cell));
    (told(&journal), given_back(rt, journal))
}

fn takes<D: LogDisk>(journal: &mut Journal<D>, cell: &Cell) -> bool {
    if journal.closed().is_some() || journal.is_full() || journal.cells() > 15 {
        return false;
    }
    journal.append(cell).is_ok()
}

fn told<D: LogDisk>(journal: &Journal<D>) -> Kept {
    (journal.cells(), journal.closed(), journal.is_full())
}

fn given_back<D: LogDisk>(rt: &impl Abort, journal: Journal<D>) -> D {
    match journal.give_back() {
        Some(disk) => disk,
        None => rt.panic("the journal has no drive"),
    }
}
