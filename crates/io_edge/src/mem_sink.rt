//! A sink in memory. It fails at the puts that the caller lists, and when its room is full.
ghost use Rattle.std.specs.Prelude.{◌≡◌, ◌≤◌, ◌<◌, ◌+◌, ◌↔◌, ◌⊎◌, [], Some, IfOk, IsErr, length, vec_capacity};
ghost use Rattle.causes.specs.Causes.{Counts};
ghost use Rattle.io_edge.specs.FailPlan.{planned, IsListed};
ghost use Rattle.io_edge.specs.Views.{SinkView, PutsWhole};
ghost use Rattle.io_edge.specs.Puts.{Puts};

use crate::plan::Plan;
use crate::sink::{Sink, SinkFault};
use std::alloc::Global;
use std::marker::Model;
use zorder::Memory;

/// A sink that keeps all bytes it takes.
#[derive(Drop)]
pub struct MemSink {
    bytes: Vec<u8>,
    room: usize,
    plan: Plan,
}

impl Model for MemSink {
    ghost Value = { SinkView };

    ghost view = { λ s. record { taken = s.bytes.items; room = s.room; plan = s.plan } };

    ghost invariant = { λ s. (length s.bytes.items ≤ s.room) × (s.room ≤ vec_capacity s.bytes) };
}

impl MemSink {
    /// Creates a sink with room for `room` bytes, and reserves this memory at once. `failing` has the numbers of the
    /// puts that fail, counted from 1. After put 2^64 - 1 the number no longer rises.
    pub fn new(alloc: Global, room: usize, failing: Vec<u64>) -> Result<MemSink, Memory>
        ensures { IfOk result (λ s. s ≡ record { taken = []; room = room; plan = planned failing.items }) }
    {
        Ok(MemSink {
            bytes: Vec::with_capacity(alloc, room)?,
            room,
            plan: Plan::new(failing),
        })
    }

    /// Returns the bytes taken so far.
    pub fn bytes(&self) -> &[u8]
        ensures { result.now ≡ self.now.taken }
    {
        self.bytes.as_slice()
    }
}

impl Sink for MemSink {
    ghost output = { λ s. record { taken = Some s.taken; faults = s.plan.faults } };

    fn put(&mut self, piece: &[u8]) -> Result<(), SinkFault>
        ensures bytes { Puts (Some self.old.taken) (Some self.new.taken) piece.now result }
        ensures cause { Counts self.old.plan.faults self.new.plan.faults result }
        ensures fails { IsErr result ↔ (IsListed self.old.plan ⊎ (self.old.room < length self.old.taken + length piece.now)) }
        ensures exact { PutsWhole self.old self.new piece.now result }
    {
        let is_listed = self.plan.begin();
        if is_listed || piece.len() > self.room - self.bytes.len() {
            self.plan.fail();
            return Err(SinkFault);
        }
        self.bytes.extend_from_slice(piece).unwrap();
        Ok(())
    }
}
