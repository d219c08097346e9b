//! What a run leaves.
use plain_list::Entries;

/// The exit status of a run, both drives, and its history. The history has the calls of the rows and the steps of
/// splits. If an append failed, the lost step is its last entry. The history is empty if no row was played.
///
/// Statuses: 0 all done, 2 usage, 3 input, 4 log, 5 source, 6 sink, 7 disk, 8 limit, 9 memory, 10 in use.
#[derive(Drop)]
pub struct Outcome<D: Drop> {
    pub status: u8,
    pub disk: D,
    pub other: D,
    pub events: Entries,
}
