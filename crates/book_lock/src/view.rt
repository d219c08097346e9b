//! What a seat knows.
use crate::origin::Origin;
use plain_list::Entry;
use std::collections::LinkedList;

/// The rule of the lock alone uses this type, and no value of it is ever created.
pub struct View {
    pub seen: LinkedList<Entry>,
    /// What another seat has passed on, until it is compared with what was seen.
    pub told: LinkedList<Entry>,
    pub own: LinkedList<u64>,
    pub origin: Origin,
    pub parts: u64,
    pub holds: bool,
}
