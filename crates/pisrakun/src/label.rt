//! The session, the row, the place and the change that a caller keeps.
use plain_list::Change;

/// What marks the next call of a session, and the place and the change of its last one that was answered.
#[derive(Clone, Copy)]
pub struct Label {
    pub session: u8,
    /// The number of the next row, from 0.
    pub row: u32,
    /// The place of the last call that was answered, and 0 if there is none.
    pub place: u64,
    /// What that call has changed, if anything.
    pub change: Option<Change>,
}
