//! A full store that goes from one file to the other and back, to measure how long that takes.
ghost use Rattle.soak.specs.Whole.{IsWhole};
ghost use Rattle.store_client.specs.Caller.{Keeps};

use crate::dice::Dice;
use crate::plan::Plan;
use crate::soak::{LAST, Leaves, SoakPass, rotate_and_tell};
use crate::trouble::Trouble;
use disk_trait::LogDisk;
use index_layer::Index;
use sessions::{CallFault, Start, Store};
use std::alloc::Global;
use std::io::Print;
use std::rt::Clock;
use std::sync::Wait;
use store_client::Client;
use store_file::{OverFile, Rotated};

// Puts all objects into an empty store, with ids that look random.
fn fill<I: Index, D: LogDisk, O: Start, R: Wait>(
    rt: &R,
    client: &mut Client<'_, I, D, O>,
    plan: Plan,
) -> Result<(), CallFault>
    ensures { Keeps client.old client.new }
{
    let mut dice = Dice::new(plan.seed, LAST);
    for number in 0..u64::from(plan.objects) {
        // An odd factor, so no id comes twice.
        let id = number.wrapping_mul(0x9e37_79b9_7f4a_7c15);
        client.put(rt, id, dice.place(), 0)?;
    }
    Ok(())
}

/// Fills an empty store in one of two files, and rotates it `plan.calls` times. Prints each rotation.
pub fn turn_over_files<I: Index, D: LogDisk, R: Wait + Clock + Print>(
    rt: &R,
    alloc: Global,
    mut store: Store<I, D, OverFile>,
    mut pass: SoakPass<I, D, OverFile>,
    mut spare: D,
    plan: Plan,
) -> Result<(), Trouble>
    requires { IsWhole store pass }
{
    let mut client = Client::new(&store, alloc, pass, LAST);
    let filled = fill(rt, &mut client, plan);
    pass = client.into_pass();
    for turn in 0..plan.calls {
        if filled.is_err() {
            break;
        }
        let Rotated {
            store: next,
            pass: whole,
            spare: left,
        } = rotate_and_tell(rt, alloc, store, pass, spare, Leaves::of_turn(turn))?;
        store = next;
        pass = whole;
        spare = left;
    }
    store.close(pass);
    Ok(filled?)
}
