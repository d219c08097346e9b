//! A follower: a log, and what was sent.
ghost use Rattle.std.specs.Prelude.{◌≡◌, ℕ, List, Some, length, IfOk, IfErr, MatchResult};
ghost use Rattle.follower.specs.Faults.{IsFree, most_left};
ghost use Rattle.follower.specs.Follow.{NamesSent, report_of};
ghost use Rattle.follower.specs.Holding.{HoldsFirst, LeavesFirst};
ghost use Rattle.follower.specs.Turning.{Turns, RefusesTurn};

mod opening;
mod steps;

use crate::faults::FollowRefused;
use crate::turns::{Report, Turn};
use cell_format::Cell;
use disk_trait::LogDisk;
use split_log::SplitLog;
use std::alloc::Global;
use std::marker::Model;

/// A log that holds the first cells of a leader, and what was sent each way.
#[derive(Drop)]
pub struct Follower<D: LogDisk> {
    alloc: Global,
    log: SplitLog<D>,
    width: u8,
    known: u64,
    // The numbers of the cells that were sent, and how many cells were held at each acknowledgement.
    packets: Vec<u64>,
    acks: Vec<u64>,
}

impl<D: LogDisk> Model for Follower<D> {
    ghost use Rattle.std.specs.Prelude.{◌≡◌, None};
    ghost use Rattle.follower.specs.Holding.{FollowerView};

    ghost Value = { FollowerView D };

    ghost view = { λ f. record {
      disk = f.log.disk;
      width = f.width;
      state = record { held = f.log.cells; known = f.known; packets = f.packets.items; acks = f.acks.items };
    } };

    // After an append that failed there is no follower.
    ghost invariant = { λ f. f.log.failed ≡ None };
}

/// A follower after a turn, and its report.
#[derive(Drop)]
pub struct Turned<D: LogDisk> {
    pub follower: Follower<D>,
    pub report: Report,
}

impl<D: LogDisk> Follower<D> {
    /// Makes a turn. `cells` are the leader's: those of the call before, or more after them if its log has grown
    /// (`goes_on`). A refusal consumes the follower and returns the drive, which may be opened again.
    pub fn turn(self, cells: &[Cell], turn: &Turn) -> Result<Turned<D>, FollowRefused<D>>
        requires holds { HoldsFirst D.drive cells.now self }
        requires sent { NamesSent (length self.state.packets) (length self.state.acks) turn.now }

        ensures turned { IfOk result (λ t. Turns D.drive cells.now turn.now self t.follower) }
        ensures report { IfOk result (λ t. t.report ≡ report_of t.follower.state) }
        ensures refused { IfErr result (λ e. RefusesTurn D.drive cells.now turn.now self e.disk e.fault) }
        ensures whole { (bytes : List ℕ) → (D.drive self.disk).bytes ≡ Some bytes
            → IfErr result (λ e. IsFree (D.drive self.disk) (D.drive e.disk) e.fault) }
        ensures any_moment { MatchResult result
            (λ t. LeavesFirst self.width cells.now self.state.held t.follower.state.held (D.drive self.disk) (D.drive t.follower.disk))
            (λ e. LeavesFirst self.width cells.now self.state.held (most_left e.fault self.state.held) (D.drive self.disk)
            (D.drive e.disk)) }
    {
        match self.after(cells, turn) {
            Ok(follower) => {
                let report = follower.report();
                Ok(Turned { follower, report })
            }
            Err(refused) => Err(refused),
        }
    }

    /// How many cells are held, and how many of them the leader knows to be held.
    pub fn report(&self) -> Report
        ensures { result ≡ report_of self.now.state }
    {
        Report {
            held: self.log.cells(),
            known: self.known,
        }
    }

    /// The number of packets that were sent. A turn may name each of them, from 1 on.
    pub fn packets(&self) -> usize
        ensures { result ≡ length self.now.state.packets }
    {
        self.packets.len()
    }

    /// The number of acknowledgements that were sent. A turn may name each of them, from 1 on.
    pub fn acks(&self) -> usize
        ensures { result ≡ length self.now.state.acks }
    {
        self.acks.len()
    }

    /// Returns the drive, whatever its file holds.
    pub fn give_back(self) -> D
        ensures { result ≡ self.disk }
    {
        self.log.give_back()
    }
}
