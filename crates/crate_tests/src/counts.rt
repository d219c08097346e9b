//! A count from its beginning.
ghost use Rattle.std.specs.Prelude.{◌≡◌, ◌+◌};

use std::marker::Brand;
use std::sync::ledger::{Blank, Ledger};
use step_count::Steps;

fn twice<L: Ledger>(steps: &mut Steps<L>)
    ensures { steps.new ≡ steps.old + 2 }
{
    steps.tick();
    steps.tick();
}

fn count<L: Ledger>(blank: Blank) -> usize
    requires name { blank.name ≡ L.name }
    requires parts { blank.parts ≡ L.parts }
    requires one_part { blank.parts ≡ 1 }
{
    let mut steps = Steps::<L>::new(blank);
    twice(&mut steps);
    size_of::<Steps<L>>()
}

#[test]
fn a_count_takes_no_room_and_needs_no_ledger_of_its_own(rt: HostRuntime) {
    let bytes = count::<Brand>(Blank::new(1));
    assert_same!(rt; bytes, 0);
}
