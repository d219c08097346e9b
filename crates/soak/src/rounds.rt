//! The rounds of chains over two files. After each round the store continues in the other file.
ghost use Rattle.std.specs.Prelude.{◌≡◌, IfSome, vec_len};
ghost use Rattle.soak.specs.Whole.{IsWhole};

use crate::chain::Chain;
use crate::plan::Plan;
use crate::soak::{Leaves, SoakPass, play_round, rotate};
use crate::trouble::Trouble;
use disk_trait::LogDisk;
use index_layer::Index;
use sessions::Store;
use std::alloc::Global;
use std::io::{self, Print};
use std::sync::Wait;
use std::thread::Threads;
use store_file::{AtSync, OverFile, Rotated, rotate_at_sync};

// The chains of four threads, if there is memory for them.
fn chains_of(alloc: Global, plan: Plan) -> Option<Vec<Chain>>
    ensures { IfSome result (λ all. vec_len all ≡ 4) }
{
    let chains = [
        Chain::new(alloc, plan, 0),
        Chain::new(alloc, plan, 1),
        Chain::new(alloc, plan, 2),
        Chain::new(alloc, plan, 3),
    ];
    Vec::from_array(alloc, chains).ok()
}

/// Checks whether a store in one of two files has what the first changes of each chain leave, and nothing else. Then
/// makes further changes, and after each round continues in the other file. Prints at once what was found and what was
/// done.
pub fn chain_over_files<I: Index + Send, D: LogDisk + Send, R: Threads + Wait + Sync + Print>(
    rt: &R,
    alloc: Global,
    mut store: Store<I, D, OverFile>,
    mut pass: SoakPass<I, D, OverFile>,
    mut spare: D,
    points: u64,
    plan: Plan,
) -> Result<(), Trouble>
    requires { IsWhole store pass }
{
    let mut crew = chains_of(alloc, plan);
    pass = play_round(rt, alloc, &store, pass, &mut crew);
    let mut done = look_first(rt, &crew, points);
    for turn in 0..u64::MAX {
        if !matches!(done, Ok(false)) {
            break;
        }
        let back = play_round(rt, alloc, &store, pass, &mut crew);
        done = look(rt, "done", &crew);
        let Rotated {
            store: next,
            pass: whole,
            spare: left,
        } = rotate(rt, alloc, store, back, spare, Leaves::of_turn(turn))?;
        store = next;
        pass = whole;
        spare = left;
    }
    store.close(pass);
    done?;
    Ok(())
}

/// The same with a store whose records wait. A round ends with a sync of each thread, and only then are its changes
/// printed.
pub fn chain_at_sync<I: Index + Send, D: LogDisk + Send, R: Threads + Wait + Sync + Print>(
    rt: &R,
    alloc: Global,
    mut store: Store<I, D, AtSync>,
    mut pass: SoakPass<I, D, AtSync>,
    mut spare: D,
    points: u64,
    plan: Plan,
) -> Result<(), Trouble>
    requires { IsWhole store pass }
{
    let mut crew = chains_of(alloc, plan);
    pass = play_round(rt, alloc, &store, pass, &mut crew);
    let mut done = look_first(rt, &crew, points);
    for _ in 0..u64::MAX {
        if !matches!(done, Ok(false)) {
            break;
        }
        let back = play_round(rt, alloc, &store, pass, &mut crew);
        done = look(rt, "done", &crew);
        match rotate_at_sync(alloc, store, back, spare) {
            Ok(
                Rotated {
                    store: next,
                    pass: whole,
                    spare: left,
                },
            ) => {
                store = next;
                pass = whole;
                spare = left;
            }
            Err(ended) => return Err(Trouble::Ended(ended.cause)),
        }
    }
    store.close(pass);
    done?;
    Ok(())
}

// Prints how many changes were found, if there are no other objects.
fn look_first(rt: &impl Print, crew: &Option<Vec<Chain>>, points: u64) -> Result<bool, Trouble> {
    let done = look(rt, "found", crew)?;
    let should = objects_of(crew);
    if points == should {
        Ok(done)
    } else {
        Err(Trouble::Number {
            found: points,
            should,
        })
    }
}

// How many objects there should be.
fn objects_of(crew: &Option<Vec<Chain>>) -> u64 {
    let Some(chains) = crew else {
        return 0;
    };
    let each = chains.iter().map(|chain| chain.objects());
    each.fold(0u64, |sum, more| sum.saturating_add(more))
}

// Prints how many changes were made, and returns whether all were made, if nothing is wrong.
fn look(rt: &impl Print, what: &str, crew: &Option<Vec<Chain>>) -> Result<bool, Trouble> {
    let Some(chains) = crew else {
        return Err(Trouble::Memory);
    };
    if let Some(trouble) = chains.iter().find_map(|chain| trouble_of(chain)) {
        return Err(trouble);
    }
    tell(rt, what, chains)?;
    Ok(chains.iter().all(|chain| chain.left == 0))
}

// What is wrong with a chain, if anything is.
fn trouble_of(chain: &Chain) -> Option<Trouble> {
    let (session, broken) = (chain.session, chain.broken?);
    Some(Trouble::Chain { session, broken })
}

fn tell(rt: &impl Print, what: &str, chains: &[Chain]) -> io::Result<()> {
    print!(rt; "{what}")?;
    for chain in chains {
        print!(rt; " {}", chain.done)?;
    }
    println!(rt; "")
}
