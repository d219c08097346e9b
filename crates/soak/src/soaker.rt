//! The calls of a thread.
ghost use Rattle.plain_list.specs.Answer.{IsValid};
ghost use Rattle.zorder.specs.Region.{IsBox};
ghost use Rattle.store_client.specs.Caller.{Keeps};

use crate::dice::Dice;
use crate::plan::Plan;
use disk_trait::LogDisk;
use index_layer::Index;
use plain_list::{Answer, Op};
use sessions::{CallFault, Start};
use std::alloc::Global;
use std::sync::Wait;
use store_client::{Client, Work};
use zorder::{Point, Region};

/// A call of a thread, its place among those of the history, from 1, and its answer, if it is checked.
#[derive(Drop)]
pub struct Noted {
    pub place: u64,
    pub op: Op,
    pub answer: Option<Answer>,
}

/// A thread of drawn calls, and its answers of this round.
#[derive(Drop)]
pub struct Soaker {
    dice: Dice,
    plan: Plan,
    /// How many calls it is still to make.
    pub left: u64,
    moment: u64,
    // Where it put or moved an object last.
    last: Point,
    pub replies: Vec<Noted>,
    /// Why a call was refused.
    pub fault: Option<CallFault>,
}

impl Soaker {
    pub fn new(alloc: Global, plan: Plan, session: u8) -> Soaker {
        Soaker {
            dice: Dice::new(plan.seed, session),
            plan,
            left: plan.share(session),
            moment: 0,
            last: Point { x: 0, y: 0 },
            replies: Vec::new(alloc),
            fault: None,
        }
    }

    // A box around the last position. It has some dozens of objects if these are spread over all positions, and one
    // dozen in the small corner. One box in 64 is large.
    fn region(&mut self) -> Region
        ensures { IsBox result }
    {
        let Point { x: a, y: b } = self.last;
        let corner = if (a | b) >> 24 == 0 { 8 } else { 0 };
        let dense = (self.plan.objects / 64).max(1).ilog2() / 2;
        let narrow = if self.dice.below(64) == 0 {
            0
        } else {
            dense + corner
        };
        let most = u32::MAX >> narrow;
        let (x, y) = (self.dice.below(most), self.dice.below(most));
        Region {
            lo: Point {
                x: a.saturating_sub(x),
                y: b.saturating_sub(y),
            },
            hi: Point {
                x: a.saturating_add(x),
                y: b.saturating_add(y),
            },
        }
    }

    // Of a hundred calls 12 put an object, 55 move one, 4 remove one and 14 look one up. 8 are box queries and 7 are
    // nearest-neighbour queries. One put or move in twelve comes late.
    fn next_op(&mut self) -> Op
        ensures { IsValid result }
    {
        self.moment = self.moment.saturating_add(1);
        let late = if self.dice.below(12) == 0 { 2 } else { 1 };
        let id = u64::from(self.dice.below(self.plan.objects.max(1)));
        let (at, moment) = (self.dice.place(), self.moment / late);
        let kind = self.dice.below(100);
        if kind < 67 {
            self.last = at;
        }
        match kind {
            0..=11 => Op::Put { id, at, moment },
            12..=66 => Op::Move { id, at, moment },
            67..=70 => Op::Remove { id },
            71..=84 => Op::Find { id },
            85..=92 => Op::Within {
                region: self.region(),
            },
            _ => Op::Near {
                at: self.last,
                k: self.dice.below(16) + 1,
            },
        }
    }

    fn note(&mut self, op: &Op, place: u64, answer: Answer) {
        self.left = self.left.saturating_sub(1);
        let answer = if self.plan.looks_at(op, place) {
            Some(answer)
        } else {
            None
        };
        let op = *op;
        if self.replies.push(Noted { place, op, answer }).is_err() {
            self.fault = Some(CallFault::Memory { place: Some(place) });
        }
    }
}

impl<R: Wait> Work<R> for Soaker {
    fn work<I: Index, D: LogDisk, O: Start>(&mut self, rt: &R, client: &mut Client<'_, I, D, O>)
        ensures client { Keeps client.old client.new }
    {
        for _ in 0..self.plan.each() {
            if self.left == 0 || self.fault.is_some() {
                return;
            }
            let op = self.next_op();
            match client.ask(rt, &op) {
                Ok(reply) => self.note(&op, reply.place, reply.answer),
                Err(fault) => self.fault = Some(fault),
            }
        }
    }
}
