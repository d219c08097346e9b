//! Rows from draws.
ghost use Rattle.std.specs.Prelude.{◌≡◌, ◌≤◌, ◌<◌, IfOk};
ghost use Rattle.make_moves.specs.Draws.{after_draws};
ghost use Rattle.make_moves.specs.Moves.{made_rows, made_op, row_drawn, box_from};

use crate::draws::Draws;
use csv_rows::{InRow, Rows};
use plain_list::Op;
use std::alloc::Global;
use zorder::{Memory, Point, Region};

/// The size of a box on each axis. The box ends at the edge of the plane.
const REACH: u32 = 16_777_216;

/// The moment of a position is its x divided by this number, which leaves the upper 16 bits of x.
const MOMENTS: u32 = 65_536;

/// Returns the first `n` rows of a seed.
pub fn make(alloc: Global, n: u32, seed: u64) -> Result<Rows, Memory>
    requires { n ≤ 65536 }
    ensures { IfOk result (λ rows. rows ≡ made_rows n seed) }
{
    let mut draws = Draws::new(seed);
    let mut rows = Vec::with_capacity(alloc, n as usize)?;
    for i in 0..n {
        rows.push(next_row(&mut draws, i))?;
    }
    Ok(Rows::from_vec(rows))
}

// Each row takes three draws, however many of them it uses.
fn next_row(draws: &mut Draws, i: u32) -> InRow
    ensures row { result ≡ row_drawn i draws.old.state }
    ensures state { draws.new.state ≡ after_draws 3 draws.old.state }
{
    let session = 1 + (i % 16) as u8;
    let u = draws.draw();
    let v = draws.draw();
    let w = draws.draw();
    InRow {
        session,
        op: op_from(session, u, Point { x: v, y: w }),
    }
}

fn op_from(session: u8, u: u32, at: Point) -> Op
    requires { session ≤ 16 }
    ensures { result ≡ made_op session u at }
{
    let r = u / 16;
    let id = 1000 * u64::from(session) + u64::from(r % 1000);
    let moment = u64::from(at.x / MOMENTS);
    match u % 10 {
        0..=3 => Op::Put { id, at, moment },
        4 | 5 => Op::Move { id, at, moment },
        6 => Op::Remove { id },
        7 => Op::Find { id },
        8 => Op::Within {
            region: box_from(at),
        },
        _ => Op::Near { at, k: 1 + r % 8 },
    }
}

fn box_from(at: Point) -> Region
    ensures { result ≡ box_from at }
{
    Region {
        lo: at,
        hi: Point {
            x: at.x.saturating_add(REACH),
            y: at.y.saturating_add(REACH),
        },
    }
}
