//! Several clients at once, each in its own thread.
ghost use Rattle.std.specs.Prelude.{◌≡◌, ◌≤◌, ◌<◌, [], IfOk, IfErr, vec_len, vec_capacity};
ghost use Rattle.std.specs.List.{All};
ghost use mathlib.Core.List.{IsPrefix};
ghost use Rattle.store_client.specs.Caller.{Keeps, has_joined, without_part, with_part_of};
ghost use Rattle.store_client.specs.Teams.{AllDid, AllKept, Did, HasGiven, HasTaken, IsHired, TeamDid, HasHired, AreHome, session_at};

use crate::client::Client;
use disk_trait::LogDisk;
use index_layer::Index;
use sessions::Start;
use std::sync::Wait;
use std::thread::{self, Threads};

/// What a client does in its own thread. The runtime may have more than waiting, for example a clock.
pub trait Work<R: Wait> {
    ghost use Rattle.std.specs.Prelude.{⊤};
    ghost use Rattle.store_client.specs.Caller.{Caller};

    /// What the work makes of itself and of the client.
    ghost does: { Self → Caller → Self → Caller → Type 0 } = { λ _ _ _ _. ⊤ };

    fn work<I: Index, D: LogDisk, O: Start>(&mut self, rt: &R, client: &mut Client<'_, I, D, O>)
        ensures does { does self.old client.old self.new client.new }
        ensures client { Keeps client.old client.new };
}

/// A client, and its work.
pub struct Worker<'s, I: Index, D: LogDisk, O: Start, W> {
    pub client: Client<'s, I, D, O>,
    pub work: W,
}

/// Lets each of a team work in its own thread, and returns when all are done. If no thread can be started, they work one
/// after another, so none may wait for another.
pub fn at_once<
    's,
    I: Index + Send,
    D: LogDisk + Send,
    O: Start + Send,
    W: Work<R> + Send,
    R: Threads + Wait + Sync,
>(rt: &R, team: &mut [Worker<'s, I, D, O, W>])
    ensures does { AllDid W.does team.old team.new }
    ensures clients { AllKept team.old team.new }
{
    let threads = team.len().max(1);
    thread::for_each_mut(
        rt,
        team,
        threads,
        &|_, worker|
            ensures { Did W.does worker.entry.now worker.exit.now }
        { worker.work.work(rt, &mut worker.client) },
    );
}

impl<'s, I: Index, D: LogDisk, O: Start> Client<'s, I, D, O> {
    /// A worker for a team: another client, with this work.
    pub fn hire<W>(&mut self, session: u8, work: W) -> Worker<'s, I, D, O, W>
        requires parts { 2 ≤ self.old.pass.parts }
        ensures old { self.new ≡ without_part self.old }
        ensures new { result.client ≡ with_part_of self.old session }
        ensures work { result.work ≡ work }
        ensures given { HasGiven 1 self.old self.new }
        ensures hired { IsHired self.old result.client }
    {
        Worker {
            client: self.another(session),
            work,
        }
    }

    /// Joins a worker's client to this one, and returns the work. The worker's client ends.
    pub fn take_home<W>(&mut self, worker: Worker<'s, I, D, O, W>) -> W
        requires lock { worker.client.pass.lock ≡ self.old.pass.lock }
        ensures joined { self.new ≡ has_joined self.old worker.entry.client.pass }
        ensures begins { IsPrefix self.old.pass.seen self.new.pass.seen × IsPrefix worker.entry.client.pass.seen self.new.pass.seen }
        ensures taken { HasTaken worker.entry.client.pass.parts self.old self.new }
        ensures work { result ≡ worker.entry.work }
    {
        let Worker { client, work } = worker;
        self.join(client);
        work
    }
}

// The session of a worker after so many others. The sessions count from `first`.
pub(crate) fn session_behind(first: u8, others: usize) -> u8
    ensures { result ≡ session_at first others }
{
    first.wrapping_add((others % 256) as u8)
}

impl<'s, I: Index, D: LogDisk, O: Start> Client<'s, I, D, O> {
    // Hires a worker for each of these works, the last one first.
    fn hire_all<W>(&mut self, first: u8, works: &mut Vec<W>, team: &mut Vec<Worker<'s, I, D, O, W>>)
        requires parts { vec_len works.old < self.old.pass.parts }
        requires empty { team.old.items ≡ [] }
        requires room { vec_len works.old ≤ vec_capacity team.old }
        ensures hired { HasHired first self.old self.new works.old.items team.new.items }
        ensures emptied { works.new.items ≡ [] }
        ensures capacity { vec_capacity works.new ≡ vec_capacity works.old }
    {
        while let Some(work) = works.pop() {
            let session = session_behind(first, works.len());
            team.push_reserved(self.hire(session, work));
        }
    }

    // Takes a team home, the last one first.
    fn take_all_home<W>(&mut self, mut team: Vec<Worker<'s, I, D, O, W>>, works: &mut Vec<W>)
        requires lock { All (λ hand. hand.client.pass.lock ≡ self.old.pass.lock) team.items }
        requires empty { works.old.items ≡ [] }
        requires room { vec_len team ≤ vec_capacity works.old }
        ensures home { AreHome self.old self.new team.entry.items works.new.items }
    {
        while let Some(worker) = team.pop() {
            works.push_reserved(self.take_home(worker));
        }
        team.destroy_empty();
    }
}

impl<'s, I: Index + Send, D: LogDisk + Send, O: Start + Send> Client<'s, I, D, O> {
    /// Lets each of these works run in its own thread, with its own client that has seen what this one has. The call
    /// returns the works in their order when all are done. Their sessions count from `first`, and continue at 0 after 255.
    /// If memory runs out, no work has run, and the call returns all of them.
    pub fn work_all<W: Work<R> + Send, R: Threads + Wait + Sync>(
        &mut self,
        rt: &R,
        first: u8,
        mut works: Vec<W>,
    ) -> Result<Vec<W>, Vec<W>>
        requires parts { vec_len works < self.old.pass.parts }
        ensures client { Keeps self.old self.new }
        ensures did { IfOk result (λ done. TeamDid W.does first self.old self.new works.items done.items) }
        ensures back { IfErr result (λ back. (back.items ≡ works.items) × (self.new ≡ self.old)) }
    {
        let Ok(mut team) = Vec::with_capacity(self.alloc, works.len()) else {
            return Err(works);
        };
        self.hire_all(first, &mut works, &mut team);
        at_once(rt, &mut team);
        self.take_all_home(team, &mut works);
        Ok(works)
    }
}
