//! Which calls of a drive in memory fail.
ghost use Rattle.std.specs.Prelude.{◌≡◌, ◌+◌, ◌-◌, ◌^◌, ◌<◌};
ghost use Rattle.disk_mem.specs.Plans.{number_of, counted, is_same, is_listed, verdict_of, planned};

use std::marker::Model;

/// A kind of call on a drive.
#[derive(Clone, Copy, Debug, PartialEq, Eq)]
pub enum DiskCall {
    Attach,
    Len,
    Read,
    Write,
    Cut,
    Sync,
}

impl DiskCall {
    fn is(self, other: DiskCall) -> bool
        ensures { result ≡ is_same self other }
    {
        self == other
    }
}

/// A call that fails: the call of its kind with this number. Each kind is counted separately, from 1.
#[derive(Clone, Copy, Debug, PartialEq, Eq)]
pub struct Fail {
    pub call: DiskCall,
    pub number: u64,
}

fn is_failing(failing: &[Fail], call: DiskCall, number: u64) -> bool
    ensures { result ≡ is_listed call number failing.now }
{
    failing
        .iter()
        .any(|f| f.call.is(call) && f.number == number)
}

/// How many calls of each kind were made.
#[derive(Clone, Copy)]
pub struct Numbers {
    pub attach: u64,
    pub len: u64,
    pub read: u64,
    pub write: u64,
    pub cut: u64,
    pub sync: u64,
}

impl Numbers {
    /// Counts one more call, and returns its number.
    fn add(&mut self, call: DiskCall) -> u64
        requires { number_of call self.old + 1 < 2 ^ 64 }
        ensures counted { self.new ≡ counted call self.old }
        ensures number { result ≡ number_of call self.old + 1 }
    {
        match call {
            DiskCall::Attach => {
                self.attach += 1;
                self.attach
            }
            DiskCall::Len => {
                self.len += 1;
                self.len
            }
            DiskCall::Read => {
                self.read += 1;
                self.read
            }
            DiskCall::Write => {
                self.write += 1;
                self.write
            }
            DiskCall::Cut => {
                self.cut += 1;
                self.cut
            }
            DiskCall::Sync => {
                self.sync += 1;
                self.sync
            }
        }
    }
}

/// What happens to a call: it passes, it fails as planned, or it is beyond the bound and doesn't reach the file.
#[derive(Clone, Copy)]
pub enum Verdict {
    Passes,
    Fails,
    Past,
}

/// The calls that fail, and how many calls may still be made.
#[derive(Drop)]
pub struct Plan {
    failing: Vec<Fail>,
    numbers: Numbers,
    left: usize,
}

impl Model for Plan {
    ghost use Rattle.disk_mem.specs.Plans.{PlanView, IsCounted};

    ghost Value = { PlanView };

    ghost view = { λ a. record { failing = a.failing.items; numbers = a.numbers; left = a.left } };

    ghost invariant = { λ a. IsCounted a.numbers a.left };
}

impl Plan {
    ghost use Rattle.disk_mem.specs.Plans.{no_calls};

    pub fn new(failing: Vec<Fail>, calls: usize) -> Plan
        ensures { result ≡ record { failing = failing.items; numbers = no_calls; left = calls } }
    {
        Plan {
            failing,
            numbers: Numbers {
                attach: 0,
                len: 0,
                read: 0,
                write: 0,
                cut: 0,
                sync: 0,
            },
            left: calls,
        }
    }

    /// Counts the next call of a kind, and returns what happens to it.
    pub fn next(&mut self, call: DiskCall) -> Verdict
        ensures plan { self.new ≡ planned call self.old }
        ensures verdict { result ≡ verdict_of call self.old }
    {
        if self.left == 0 {
            return Verdict::Past;
        }
        self.left -= 1;
        let number = self.numbers.add(call);
        if is_failing(&self.failing, call, number) {
            Verdict::Fails
        } else {
            Verdict::Passes
        }
    }
}
