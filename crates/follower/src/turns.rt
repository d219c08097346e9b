//! The turns of a schedule, and what a follower reports.
ghost use Rattle.std.specs.Prelude.{◌≡◌};

use std::marker::Model;

/// A step of a schedule. Packets and acknowledgements have numbers from 1 on, in the order in which they were sent.
#[derive(Clone, Copy, Debug, PartialEq, Eq)]
pub enum Turn {
    /// The leader sends the cell of this number.
    Send { cell: u64 },
    /// A packet arrives, and the follower sends an acknowledgement.
    Arrive { packet: u32 },
    /// An acknowledgement arrives at the leader.
    Ack { number: u32 },
    /// The follower opens its log again.
    Restart,
}

/// At most 65,536 turns. Each names only what was sent before it.
#[derive(Drop)]
pub struct Turns {
    items: Vec<Turn>,
}

impl Model for Turns {
    ghost use Rattle.std.specs.Prelude.{List};
    ghost use Rattle.follower.specs.declared.turns.Turn.{Turn};
    ghost use Rattle.follower.specs.Follow.{AreTurns};

    ghost Value = { List Turn };

    ghost view = { λ t. t.items.items };

    ghost invariant = { λ t. AreTurns t.items.items };
}

impl Turns {
    ghost use Rattle.follower.specs.Follow.{AreTurns};

    /// The turns of a list. Each names only what those before it send.
    pub fn from_vec(items: Vec<Turn>) -> Turns
        requires { AreTurns items.items }
        ensures { result ≡ items.items }
    {
        Turns { items }
    }

    pub fn as_slice(&self) -> &[Turn]
        ensures turns { result.now ≡ self.now }
        ensures rules { AreTurns self.now }
    {
        self.items.as_slice()
    }
}

/// How many cells a follower holds, and how many the leader knows it to hold.
#[derive(Clone, Copy, Debug, PartialEq, Eq)]
pub struct Report {
    pub held: u64,
    pub known: u64,
}
