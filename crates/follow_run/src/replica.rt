//! The second file. The command opens it over the leader's cells, and plays the turns.
ghost use Rattle.std.specs.Prelude.{◌≡◌, ◌++◌, ◌∷◌, length, [], IfOk, IfErr};
ghost use Rattle.follower.specs.Follow.{AreTurns, NamesSent, opened_with, report_of};
ghost use Rattle.follower.specs.Holding.{AreLeading, HoldsFirst};
ghost use Rattle.follower.specs.Turning.{MakesTurn};
ghost use Rattle.follow_run.specs.Playing.{OpensReplica, LosesReplica, LosesTurn, PlaysAll, StopsPlaying, EndsPlaying};
ghost use Rattle.follow_run.specs.Replica.{EndsReplica, follow_refusal};

use crate::lines::write_reports;
use cell_format::Cell;
use disk_trait::LogDisk;
use follower::{FollowFault, FollowRefused, Follower, Report, Turn, Turned};
use io_edge::Sink;
use run_ends::{
    Drives, Ended, Refusal, Unmade, attach, log_refusal, refuse_on, without_rows, written,
};
use std::alloc::Global;

/// Follows the leader's cells in the file of this name along turns, and writes their reports.
pub(crate) fn copy_to<K: Sink, D: LogDisk>(
    alloc: Global,
    cells: &[Cell],
    width: u8,
    turns: &[Turn],
    name: &str,
    sink: &mut K,
    drives: Drives<D>,
) -> Ended<D>
    requires leading { AreLeading width cells.now }
    requires turns { AreTurns turns.now }
    ensures ends { EndsReplica width cells.now turns.now name.now (D.drive drives.other) (D.drive result.drives.other) result.status
        (K.output sink.old) (K.output sink.new) }
    ensures none { result.history ≡ [] }
    ensures disk { result.drives.disk ≡ drives.disk }
{
    let Drives { disk, other } = drives;
    match open_replica(alloc, cells, width, name, other) {
        Ok(follower) => turn_and_tell(alloc, follower, cells, turns, sink, disk),
        Err(Unmade { disk: other, why }) => refuse_on(alloc, &why, sink, Drives { disk, other }),
    }
}

// Opens a follower over the file of this name.
fn open_replica<D: LogDisk>(
    alloc: Global,
    cells: &[Cell],
    width: u8,
    name: &str,
    mut other: D,
) -> Result<Follower<D>, Unmade<D>>
    requires leading { AreLeading width cells.now }
    ensures opened { IfOk result (OpensReplica D.drive width cells.now name.now (D.drive other)) }
    ensures refused { IfErr result (λ e. LosesReplica width cells.now name.now (D.drive other) (D.drive e.disk) e.why) }
{
    if let Err(why) = attach(alloc, name, true, &mut other) {
        return Err(Unmade { disk: other, why });
    }
    match Follower::open(alloc, other, cells, width) {
        Ok(follower) => Ok(follower),
        Err(FollowRefused { disk, fault }) => {
            let why = follow_refusal(fault);
            Err(Unmade { disk, why })
        }
    }
}

// Makes turns with a follower that was just opened, and writes their reports. Passes the first drive on.
fn turn_and_tell<K: Sink, D: LogDisk>(
    alloc: Global,
    follower: Follower<D>,
    cells: &[Cell],
    turns: &[Turn],
    sink: &mut K,
    disk: D,
) -> Ended<D>
    requires opened { follower.state ≡ opened_with follower.state.held }
    requires holds { HoldsFirst D.drive cells.now follower }
    requires turns { AreTurns turns.now }
    ensures ends { EndsPlaying follower.width cells.now follower.state.held turns.now (D.drive follower.disk) (D.drive result.drives.other)
        result.status (K.output sink.old) (K.output sink.new) }
    ensures none { result.history ≡ [] }
    ensures disk { result.drives.disk ≡ disk }
{
    match play_turns(alloc, follower, cells, turns) {
        Ok(
            Played {
                disk: other,
                reports,
            },
        ) => {
            let status = written(write_reports(sink, reports.as_slice()));
            without_rows(alloc, status, Drives { disk, other })
        }
        Err(FollowRefused { disk: other, fault }) => {
            let why = follow_refusal(fault);
            refuse_on(alloc, &why, sink, Drives { disk, other })
        }
    }
}

// The drive after all turns, and their reports.
#[derive(Drop)]
struct Played<D: LogDisk> {
    disk: D,
    reports: Vec<Report>,
}

// A follower in the middle of its turns, and its reports so far.
#[derive(Drop)]
struct Playing<D: LogDisk> {
    follower: Follower<D>,
    reports: Vec<Report>,
}

// Makes all turns.
fn play_turns<D: LogDisk>(
    alloc: Global,
    follower: Follower<D>,
    cells: &[Cell],
    turns: &[Turn],
) -> Result<Played<D>, FollowRefused<D>>
    requires opened { follower.state ≡ opened_with follower.state.held }
    requires holds { HoldsFirst D.drive cells.now follower }
    requires turns { AreTurns turns.now }
    ensures played { IfOk result (λ p. PlaysAll follower.width cells.now follower.state.held turns.now (D.drive follower.disk)
        (D.drive p.disk) p.reports.items) }
    ensures stopped { IfErr result (λ e. StopsPlaying follower.width cells.now follower.state.held turns.now (D.drive follower.disk)
        (D.drive e.disk) e.fault) }
{
    let mut playing = Playing {
        follower,
        reports: Vec::new(alloc),
    };
    for turn in turns {
        playing = playing.after(cells, turn)?;
    }
    Ok(Played {
        disk: playing.follower.give_back(),
        reports: playing.reports,
    })
}

impl<D: LogDisk> Playing<D> {
    // Makes a turn, and keeps its report.
    fn after(self, cells: &[Cell], turn: &Turn) -> Result<Playing<D>, FollowRefused<D>>
        requires holds { HoldsFirst D.drive cells.now self.follower }
        requires sent { NamesSent (length self.follower.state.packets) (length self.follower.state.acks) turn.now }
        ensures turned { IfOk result (λ p. MakesTurn D.drive cells.now turn.now self.follower p.follower) }
        ensures told { IfOk result (λ p. p.reports.items ≡ self.reports.items ++ report_of p.follower.state ∷ []) }
        ensures refused { IfErr result (λ e. LosesTurn D.drive cells.now turn.now self.follower e.disk e.fault) }
    {
        let Playing {
            follower,
            mut reports,
        } = self;
        match follower.turn(cells, turn) {
            Ok(Turned { follower, report }) => match reports.push(report) {
                Ok(()) => Ok(Playing { follower, reports }),
                Err(_) => Err(FollowRefused {
                    disk: follower.give_back(),
                    fault: FollowFault::Memory,
                }),
            },
            Err(refused) => Err(refused),
        }
    }
}

fn follow_refusal(fault: FollowFault) -> Refusal
    ensures { result ≡ follow_refusal fault }
{
    match fault {
        FollowFault::Strange { cell } => Refusal::Strange { cell },
        FollowFault::Log { fault } => log_refusal(fault),
        FollowFault::Append { cell } => Refusal::Disk { cell: Some(cell) },
        FollowFault::Disk => Refusal::Disk { cell: None },
        FollowFault::Memory => Refusal::Memory,
    }
}
