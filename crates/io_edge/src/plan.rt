//! Which calls of a source or sink in memory fail.
ghost use Rattle.std.specs.Prelude.{◌≡◌, ◌≤◌, ◌↔◌, IsTrue};
ghost use Rattle.io_edge.specs.FailPlan.{FailPlan, planned, counted, failed, IsListed};

use std::marker::Model;

// The numbers of the calls that fail, counted from 1, and how many calls were made and failed so far.
#[derive(Drop)]
pub(crate) struct Plan {
    failing: Vec<u64>,
    calls: u64,
    faults: u64,
}

impl Model for Plan {
    ghost Value = { FailPlan };

    ghost view = { λ p. record { failing = p.failing.items; calls = p.calls; faults = p.faults } };
}

impl Plan {
    pub(crate) fn new(failing: Vec<u64>) -> Plan
        ensures { result ≡ planned failing.items }
    {
        Plan {
            failing,
            calls: 0,
            faults: 0,
        }
    }

    // Counts a call, and returns whether it is listed to fail.
    pub(crate) fn begin(&mut self) -> bool
        ensures listed { IsTrue result ↔ IsListed self.old }
        ensures after { self.new ≡ counted self.old }
    {
        self.calls = self.calls.saturating_add(1);
        self.failing.contains(&self.calls)
    }

    pub(crate) fn fail(&mut self)
        ensures after { self.new ≡ failed self.old }
        ensures later { self.old.faults ≤ self.new.faults }
    {
        self.faults = self.faults.saturating_add(1);
    }
}
