//! How a caller waits.

/// How the owner of a pass waits for the lock. No contract depends on it.
#[derive(Clone, Copy)]
pub(crate) struct Manner {
    /// Whether the caller is one of a batch, and naps. Others are prompt.
    pub is_batch: bool,
    /// Whether its next call only reads the value.
    pub is_reader: bool,
    /// How often it has had the lock since it last waited for it.
    pub turns: u32,
}

impl Manner {
    pub fn new() -> Manner {
        Manner {
            is_batch: false,
            is_reader: false,
            turns: 0,
        }
    }

    /// The same after a wait, or after none.
    pub fn having_waited(self, has_waited: bool) -> Manner {
        Manner {
            turns: if has_waited {
                0
            } else {
                self.turns.saturating_add(1)
            },
            ..self
        }
    }
}
