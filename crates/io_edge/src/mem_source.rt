//! A source over bytes in memory. It fails at the reads that the caller lists.
ghost use Rattle.std.specs.Prelude.{◌≡◌, ◌≤◌, ◌↔◌, Some, IfOk, IsErr, length, drop};
ghost use Rattle.std.specs.Io.KnownBytes.{ReadConsumes};
ghost use Rattle.causes.specs.Causes.{Counts};
ghost use Rattle.io_edge.specs.FailPlan.{planned, IsListed};
ghost use Rattle.io_edge.specs.Views.{SourceView, ReadsNext};

use crate::plan::Plan;
use crate::source::{Source, SourceFault};
use std::marker::Model;

/// Bytes in memory as a source. Each read returns as many bytes as fit.
#[derive(Drop)]
pub struct MemSource {
    bytes: Vec<u8>,
    at: usize,
    plan: Plan,
}

impl Model for MemSource {
    ghost Value = { SourceView };

    ghost view = { λ s. record { left = drop s.at s.bytes.items; plan = s.plan } };

    ghost invariant = { λ s. s.at ≤ length s.bytes.items };
}

impl MemSource {
    /// `failing` has the numbers of the reads that fail, counted from 1. After read 2^64 - 1 the number no longer
    /// rises.
    pub fn new(bytes: Vec<u8>, failing: Vec<u64>) -> MemSource
        ensures { result ≡ record { left = bytes.items; plan = planned failing.items } }
    {
        MemSource {
            bytes,
            at: 0,
            plan: Plan::new(failing),
        }
    }
}

impl Source for MemSource {
    ghost input = { λ s. record { left = Some s.left; faults = s.plan.faults } };

    fn read(&mut self, into: &mut [u8]) -> Result<usize, SourceFault>
        ensures bound { IfOk result (λ n. n ≤ length into.old) }
        ensures bytes { ReadConsumes (Some self.old.left) (Some self.new.left) result into.new }
        ensures cause { Counts self.old.plan.faults self.new.plan.faults result }
        ensures fails { IsErr result ↔ IsListed self.old.plan }
        ensures exact { ReadsNext self.old self.new into.old into.new result }
    {
        if self.plan.begin() {
            self.plan.fail();
            return Err(SourceFault);
        }
        let n = into.len().min(self.bytes.len() - self.at);
        let end = self.at + n;
        into[..n].copy_from_slice(&self.bytes[self.at..end]);
        self.at = end;
        Ok(n)
    }
}
