//! The first rows of some seeds.
use csv_rows::InRow;
use make_moves::make;
use plain_list::Op;
use std::alloc::Global;
use zorder::{Memory, Point};

const PUT: InRow = InRow {
    session: 1,
    op: Op::Put {
        id: 1717,
        at: Point {
            x: 3938983765,
            y: 2969520912,
        },
        moment: 60104,
    },
};

fn only(rows: &[InRow]) -> Option<InRow> {
    match rows {
        [row] => Some(*row),
        _ => None,
    }
}

// The one row of a seed.
fn first_row(alloc: Global, seed: u64) -> Result<Option<InRow>, Memory> {
    let rows = make(alloc, 1, seed)?;
    Ok(only(rows.as_slice()))
}

#[test]
fn seed_2_puts_an_object_first(rt: HostRuntime) {
    assert_same!(rt; first_row(rt.alloc(), 2), Ok(Some(PUT)));
}

fn is_move(row: Option<InRow>) -> bool {
    match row {
        Some(row) => matches!(row.op, Op::Move { .. }),
        None => false,
    }
}

fn is_box(row: Option<InRow>) -> bool {
    match row {
        Some(row) => matches!(row.op, Op::Within { .. }),
        None => false,
    }
}

#[test]
fn seeds_0_and_1_move_and_ask_for_a_box_first(rt: HostRuntime) {
    assert_is!(rt; is_move(first_row(rt.alloc(), 0).expect(&rt, "it failed")));
    assert_is!(rt; is_box(first_row(rt.alloc(), 1).expect(&rt, "it failed")));
}

// The sessions of the first of 17 rows, of the 16th and of the last.
fn sessions(alloc: Global) -> Result<[u8; 3], Memory> {
    let made = make(alloc, 17, 3)?;
    let rows = made.as_slice();
    Ok([rows[0].session, rows[15].session, rows[16].session])
}

#[test]
fn sixteen_sessions_take_turns(rt: HostRuntime) {
    assert_same!(rt; sessions(rt.alloc()), Ok([1, 16, 1]));
}
