//! Worked values, and the fast forms compared with plain loops over the bits.
use std::process::Abort;
use zorder::{Name, Point, begins, child, common, key, point};

// The same bits one by one.
fn key_by_loop(at: Point) -> u64 {
    let mut key = 0;
    for i in 0..32u32 {
        key |= u64::from(at.x >> i & 1) << (2 * i + 1);
        key |= u64::from(at.y >> i & 1) << (2 * i);
    }
    key
}

fn point_by_loop(key: u64) -> Point {
    let mut x = 0;
    let mut y = 0;
    for i in 0..32u32 {
        x |= ((key >> (2 * i + 1) & 1) as u32) << i;
        y |= ((key >> (2 * i) & 1) as u32) << i;
    }
    Point { x, y }
}

const KEYS: &[(u32, u32, u64)] = &[
    (0, 0, 0),
    (1, 0, 2),
    (0, 1, 1),
    (3, 5, 27),
    (4294967295, 4294967295, 18446744073709551615),
    (0xEAC81F55, 0xB0FF4B10, 0xED88F5D512EF2322),
];

#[test]
fn keys_take_the_bits_in_turn_and_x_comes_first(rt: HostRuntime) {
    for (x, y, want) in KEYS {
        let at = Point { x: *x, y: *y };
        assert_same!(rt; (key(at), point(*want)), (*want, at));
    }
}

// A generator of Marsaglia's.
fn drawn(seed: u64) -> u64 {
    let one = seed ^ seed << 13;
    let two = one ^ one >> 7;
    two ^ two << 17
}

fn expect_fast_forms(rt: &impl Abort, seed: u64) {
    let at = point_by_loop(seed);
    assert_same!(rt; point(seed), at);
    assert_same!(rt; key_by_loop(at), seed);
    assert_same!(rt; key(at), seed);
}

#[test]
fn the_fast_forms_answer_as_the_loops_over_the_bits(rt: HostRuntime) {
    let mut seed = 88172645463325252;
    for _ in 0..4000 {
        seed = drawn(seed);
        expect_fast_forms(&rt, seed);
    }
}

const ALIKE: &[(u64, u64, u8)] = &[
    (27, 24, 62),
    (27, 27, 64),
    (0, 18446744073709551615, 0),
    (0x8000000000000000, 0xC000000000000000, 1),
];

#[test]
fn keys_share_as_many_first_bits_as_they_have_alike(rt: HostRuntime) {
    for (a, b, want) in ALIKE {
        let name = common(*a, *b);
        assert_same!(rt; (*a, *b, name.len()), (*a, *b, *want));
        assert_same!(rt; (begins(&name, *a), begins(&name, *b)), (true, true));
    }
}

const NAMES: &[(u64, u8, bool)] = &[
    (1, 63, false),
    (0, 65, false),
    (0x8000000000000000, 0, false),
    (1, 64, true),
    (0, 0, true),
];

#[test]
fn a_name_has_no_bit_behind_its_length(rt: HostRuntime) {
    for (bits, len, is_name) in NAMES {
        assert_same!(rt; (*bits, *len, Name::new(*bits, *len).is_some()), (*bits, *len, *is_name));
    }
    assert_same!(rt; Name::new(0, 0), Some(Name::whole()));
}

fn expect_name(rt: &impl Abort, name: Name, bits: u64, len: u8) {
    assert_same!(rt; Name::new(bits, len), Some(name));
}

const FIRST: u64 = 0x8000000000000000;

const LAST: u64 = 0xC000000000000000;

fn expect_low(rt: &impl Abort, low: Name, right: Name) {
    assert_is!(rt; low != right);
    assert_is!(rt; begins(&low, FIRST));
    assert_is!(rt; !begins(&low, LAST));
}

#[test]
fn a_child_has_one_bit_more(rt: HostRuntime) {
    let right = child(&Name::whole(), true);
    let low = child(&right, false);
    expect_name(&rt, right, FIRST, 1);
    expect_name(&rt, low, FIRST, 2);
    expect_name(&rt, child(&right, true), LAST, 2);
    expect_low(&rt, low, right);
}
