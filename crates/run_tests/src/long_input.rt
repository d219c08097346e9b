//! A source that has far more bytes than an input may have.
use crate::checks::holds;
use io_edge::{Source, SourceFault};
use run_ends::{Refusal, read_judged};
use std::alloc::Global;
use std::process::Abort;

// A source that never ends, and counts the bytes that are read from it.
#[derive(Drop)]
struct Endless {
    taken: u64,
}

impl Source for Endless {
    ghost use Rattle.std.specs.Prelude.{None};

    ghost input = { λ _. record { left = None; faults = 0 } };

    fn read(&mut self, into: &mut [u8]) -> Result<usize, SourceFault> {
        self.taken = self.taken.saturating_add(into.len() as u64);
        Ok(into.len())
    }
}

fn takes_one_byte_more(rt: &impl Abort, alloc: Global) {
    let mut source = Endless { taken: 0 };
    let is_long = matches!(read_judged(alloc, &mut source), Err(Refusal::LongInput));
    holds(rt, is_long, "an endless input");
    holds(rt, source.taken == 16_777_217, "how much of it is taken");
}

#[test]
fn of_an_endless_input_one_byte_is_taken_above_the_limit(rt: HostRuntime) {
    takes_one_byte_more(&rt, rt.alloc());
}
