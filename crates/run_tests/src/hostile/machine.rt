//! A follower as a plain machine: the effect of each turn, and the lines of its reports.
use std::alloc::{AllocError, Global};

/// A packet that names a cell, the arrival of a packet and of an acknowledgement by their numbers from 1, and a
/// restart.
#[derive(Clone, Copy)]
pub enum Turn {
    Send(u64),
    Arrive(u64),
    Ack(u64),
    Restart,
}

/// The state of a follower. It says how many cells the leader has, how many NEW has, and how many of these the leader
/// knows of. It also has what packets name, and what acknowledgements say.
#[derive(Drop)]
pub struct Follower {
    pub count: u64,
    pub held: u64,
    pub known: u64,
    pub packets: Vec<u64>,
    pub acks: Vec<u64>,
}

// The one of this number, from 1.
fn nth(all: &[u64], number: u64) -> Option<u64> {
    all.get((number as usize).checked_sub(1)?).copied()
}

impl Follower {
    pub fn new(alloc: Global, count: u64, held: u64) -> Follower {
        Follower {
            count,
            held,
            known: 0,
            packets: Vec::new(alloc),
            acks: Vec::new(alloc),
        }
    }

    pub fn turn(&mut self, turn: Turn) -> Result<(), AllocError> {
        match turn {
            Turn::Send(cell) => self.packets.push(cell)?,
            Turn::Arrive(packet) => self.arrive(packet)?,
            Turn::Ack(number) => {
                let says = nth(self.acks.as_slice(), number).unwrap_or(0);
                self.known = self.known.max(says);
            }
            Turn::Restart => {}
        }
        Ok(())
    }

    fn arrive(&mut self, packet: u64) -> Result<(), AllocError> {
        let is_next = nth(self.packets.as_slice(), packet) == Some(self.held);
        if is_next && self.held < self.count {
            self.held = self.held.saturating_add(1);
        }
        self.acks.push(self.held)?;
        Ok(())
    }
}

fn row_of(alloc: Global, turn: Turn) -> Result<String, AllocError> {
    match turn {
        Turn::Send(cell) => format!(in alloc; "send,{cell}\n"),
        Turn::Arrive(packet) => format!(in alloc; "arrive,{packet}\n"),
        Turn::Ack(number) => format!(in alloc; "ack,{number}\n"),
        Turn::Restart => String::from_str(alloc, "restart,\n"),
    }
}

/// These turns as an input.
pub fn input_of(alloc: Global, turns: &[Turn]) -> Result<String, AllocError> {
    let mut input = String::from_str(alloc, "turn,number\n")?;
    for turn in turns {
        let row = row_of(alloc, *turn)?;
        input.push_str(&row)?;
    }
    Ok(input)
}

/// What `follow` is to write, and how many cells NEW has then.
#[derive(Drop)]
pub struct Told {
    pub text: String,
    pub held: u64,
}

/// The result of these turns, if the leader has `count` cells, and NEW has `first` of them at the start.
pub fn told_of(alloc: Global, turns: &[Turn], count: u64, first: u64) -> Result<Told, AllocError> {
    let mut follower = Follower::new(alloc, count, first);
    let mut text = String::from_str(alloc, "turn,held,known\n")?;
    let mut number = 0_u32;
    for turn in turns {
        follower.turn(*turn)?;
        number = number.saturating_add(1);
        let held = follower.held;
        let known = follower.known;
        let line = format!(in alloc; "{number},{held},{known}\n")?;
        text.push_str(&line)?;
    }
    Ok(Told {
        text,
        held: follower.held,
    })
}
