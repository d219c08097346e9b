//! The sessions of a day. Each makes its calls with a client of its own.
ghost use Rattle.pisrakun.specs.Caller.{Keeps};

use crate::map::nearest_free;
use crate::town::{DISPATCHER, STATION, WAITING, is_good, op_of};
use pisrakun::{Answer, Client, Index, LogDisk, Start, Work};
use std::sync::Wait;

// How many calls a driver makes, and how often the dispatcher looks for a taxi.
const ROWS: u32 = 101;

/// How many of a session's answers were right, and how many of these were stale.
#[derive(Clone, Copy)]
pub struct Told {
    pub good: u32,
    pub stale: u32,
}

/// The work of one session, and the counts of its answers.
#[derive(Clone, Copy)]
pub struct Caller {
    session: u8,
    pub told: Told,
}

impl Caller {
    pub fn new(session: u8) -> Caller {
        Caller {
            session,
            told: Told { good: 0, stale: 0 },
        }
    }

    // Counts the answer to a driver's row.
    fn count(&mut self, row: u32, answer: &Answer) {
        if is_good(self.session, row, answer) {
            let is_stale = matches!(answer, Answer::Stale(_));
            self.told.good = self.told.good.saturating_add(1);
            self.told.stale = self.told.stale.saturating_add(u32::from(is_stale));
        }
    }

    // Makes the calls of a driver.
    fn drive<I: Index, D: LogDisk, O: Start, R: Wait>(
        &mut self,
        rt: &R,
        client: &mut Client<'_, I, D, O>,
    )
        ensures { Keeps client.old client.new }
    {
        for row in 0..ROWS {
            match client.ask(rt, &op_of(self.session, row)) {
                Ok(reply) => self.count(row, &reply.answer),
                Err(_) => return,
            }
        }
    }

    // Looks for a free taxi again and again, each time in a new view.
    fn dispatch<I: Index, D: LogDisk, O: Start, R: Wait + AllocGlobal>(
        &mut self,
        rt: &R,
        client: &mut Client<'_, I, D, O>,
    )
        ensures { Keeps client.old client.new }
    {
        for _ in 0..ROWS {
            let Ok(view) = client.view(rt) else {
                return;
            };
            if nearest_free(rt.alloc(), &view, STATION) == Ok(Some(WAITING)) {
                self.told.good = self.told.good.saturating_add(1);
            }
        }
    }
}

impl<R: Wait + AllocGlobal> Work<R> for Caller {
    fn work<I: Index, D: LogDisk, O: Start>(&mut self, rt: &R, client: &mut Client<'_, I, D, O>)
        ensures client { Keeps client.old client.new }
    {
        if self.session == DISPATCHER {
            self.dispatch(rt, client);
        } else {
            self.drive(rt, client);
        }
    }
}
