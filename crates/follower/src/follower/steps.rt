//! What each kind of turn does.
ghost use Rattle.std.specs.Prelude.{◌≡◌, ◌+◌, ◌-◌, ◌≤◌, ◌<◌, length, IfOk, IfErr, MatchOption};
ghost use Rattle.split_log.specs.LogView.{most_cells};
ghost use Rattle.follower.specs.declared.faults.FollowFault.TheVariants.{Memory};
ghost use Rattle.follower.specs.declared.turns.Turn.TheVariants.{Send, Arrive, Ack, Restart};
ghost use Rattle.follower.specs.Follow.{NamesSent, after_turn, acknowledging, cell_of, held_after};
ghost use Rattle.follower.specs.Holding.{HoldsFirst, with_state};
ghost use Rattle.follower.specs.Turning.{MakesTurn, FailsTurn};
ghost use Rattle.follower.specs.Adding.{IsNext, IsAdded, IsLost};

use crate::faults::{FollowFault, FollowRefused};
use crate::follower::Follower;
use crate::reopening::reopen;
use crate::turns::Turn;
use cell_format::Cell;
use disk_trait::LogDisk;
use split_log::AppendFault;

impl<D: LogDisk> Follower<D> {
    /// The follower after a turn.
    pub(super) fn after(self, cells: &[Cell], turn: &Turn) -> Result<Follower<D>, FollowRefused<D>>
        requires holds { HoldsFirst D.drive cells.now self }
        requires sent { NamesSent (length self.state.packets) (length self.state.acks) turn.now }

        ensures made { IfOk result (MakesTurn D.drive cells.now turn.now self) }
        ensures failed { IfErr result (λ e. FailsTurn D.drive cells.now turn.now self e.disk e.fault) }
    {
        match *turn {
            Turn::Send { cell } => self.send(cell),
            Turn::Arrive { packet } => self.arrive(cells, packet),
            Turn::Ack { number } => Ok(self.learn(number)),
            Turn::Restart => self.restart(cells),
        }
    }

    // A packet with the number of a cell is sent.
    fn send(mut self, cell: u64) -> Result<Follower<D>, FollowRefused<D>>
        ensures sent { IfOk result (λ f. f ≡ with_state (after_turn 0 self.state (Send cell)) self) }
        ensures memory { IfErr result (λ e. (e.disk ≡ self.disk) × (e.fault ≡ Memory)) }
    {
        match self.packets.push(cell) {
            Ok(()) => Ok(self),
            Err(_) => Err(self.refuse(FollowFault::Memory)),
        }
    }

    // The leader knows that more cells are held, if this acknowledgement says more than the earlier ones.
    fn learn(mut self, number: u32) -> Follower<D>
        requires { (1 ≤ number) × (number ≤ length self.state.acks) }
        ensures { result ≡ with_state (after_turn 0 self.state (Ack number)) self }
    {
        self.known = self.known.max(self.acks[number as usize - 1]);
        self
    }

    // A packet adds the next cell or none, and is acknowledged.
    fn arrive(self, cells: &[Cell], packet: u32) -> Result<Follower<D>, FollowRefused<D>>
        requires holds { HoldsFirst D.drive cells.now self }
        requires sent { (1 ≤ packet) × (packet ≤ length self.state.packets) }

        ensures made { IfOk result (MakesTurn D.drive cells.now (Arrive packet) self) }
        ensures failed { IfErr result (λ e. FailsTurn D.drive cells.now (Arrive packet) self e.disk e.fault) }
    {
        match self.next_in(cells, packet) {
            Some(cell) => self.add(cell),
            None => self.acknowledge(),
        }
    }

    // The cell that a packet carries, if it is the next one.
    fn next_in<'a>(&self, cells: &'a [Cell], packet: u32) -> Option<&'a Cell>
        requires { (1 ≤ packet) × (packet ≤ length self.now.state.packets) }

        ensures { MatchOption result
            (held_after (length cells.now) (cell_of packet self.now.state) self.now.state.held ≡ self.now.state.held)
            (λ cell. IsNext cells.now packet self.now.state cell.now) }
    {
        let named = self.packets[packet as usize - 1];
        if named != self.log.cells() || named >= cells.len() as u64 {
            return None;
        }
        Some(&cells[named as usize])
    }

    // The number of cells is sent to the leader.
    fn acknowledge(mut self) -> Result<Follower<D>, FollowRefused<D>>
        ensures sent { IfOk result (λ f. f ≡ with_state (acknowledging self.state.held self.state) self) }
        ensures memory { IfErr result (λ e. (e.disk ≡ self.disk) × (e.fault ≡ Memory)) }
    {
        let held = self.log.cells();
        match self.acks.push(held) {
            Ok(()) => Ok(self),
            Err(_) => Err(self.refuse(FollowFault::Memory)),
        }
    }

    // Adds a cell, and acknowledges it.
    fn add(mut self, cell: &Cell) -> Result<Follower<D>, FollowRefused<D>>
        requires few { self.state.held < most_cells }

        ensures added { IfOk result (IsAdded D.drive cell.now self) }
        ensures lost { IfErr result (λ e. IsLost D.drive cell.now self e.disk e.fault) }
    {
        // The memory first, so that nothing can fail after a cell was added.
        let held = self.log.cells() + 1;
        if self.acks.push(held).is_err() {
            return Err(self.refuse(FollowFault::Memory));
        }
        match self.log.append(cell) {
            Ok(()) => Ok(self),
            Err(AppendFault::Disk { cell }) => Err(FollowRefused {
                disk: self.log.give_back(),
                fault: FollowFault::Append { cell },
            }),
            Err(AppendFault::LogFull) => unreachable!(),
        }
    }

    // Opens the log again, and keeps what was sent.
    fn restart(self, cells: &[Cell]) -> Result<Follower<D>, FollowRefused<D>>
        requires holds { HoldsFirst D.drive cells.now self }

        ensures made { IfOk result (MakesTurn D.drive cells.now Restart self) }
        ensures failed { IfErr result (λ e. FailsTurn D.drive cells.now Restart self e.disk e.fault) }
    {
        let held = self.log.cells();
        match reopen(self.alloc, self.log.give_back(), self.width, held) {
            Ok(log) => Ok(Follower {
                alloc: self.alloc,
                log,
                width: self.width,
                known: self.known,
                packets: self.packets,
                acks: self.acks,
            }),
            Err(refused) => Err(refused),
        }
    }

    fn refuse(self, fault: FollowFault) -> FollowRefused<D>
        ensures disk { result.disk ≡ self.disk }
        ensures fault { result.fault ≡ fault }
    {
        FollowRefused {
            disk: self.log.give_back(),
            fault,
        }
    }
}
