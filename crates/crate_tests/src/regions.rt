//! Worked regions and distances.
ghost use Rattle.std.specs.Prelude.{◌≤◌};
ghost use Rattle.zorder.specs.Region.{IsBox};

use prefix_names::{dist, inside, key_range, least, meets, region};
use std::process::Abort;
use zorder::{Name, Point, Region};

const END: u32 = 4294967295;

const MIDDLE: u32 = 2147483648;

fn corners(lo_x: u32, lo_y: u32, hi_x: u32, hi_y: u32) -> Region
    requires x { lo_x ≤ hi_x }
    requires y { lo_y ≤ hi_y }
    ensures { IsBox result }
{
    Region {
        lo: Point { x: lo_x, y: lo_y },
        hi: Point { x: hi_x, y: hi_y },
    }
}

fn expect_region(rt: &impl Abort, bits: u64, len: u8, last: u64, want: Region) {
    let name = Name::new(bits, len).unwrap_or(Name::whole());
    assert_same!(rt; (region(&name), key_range(&name)), (want, (bits, last)));
}

macro_rules! region {
    ($lo_x:expr, $lo_y:expr, $hi_x:expr, $hi_y:expr) => {
        Region {
            lo: Point { x: $lo_x, y: $lo_y },
            hi: Point { x: $hi_x, y: $hi_y },
        }
    };
}

const FIRST: u64 = 0x8000000000000000;

// The bits and the length of a name, the last key in its region, and the region.
const REGIONS: &[(u64, u8, u64, Region)] = &[
    (0, 0, 0xFFFFFFFFFFFFFFFF, region!(0, 0, END, END)),
    (0, 1, 0x7FFFFFFFFFFFFFFF, region!(0, 0, 2147483647, END)),
    (FIRST, 1, 0xFFFFFFFFFFFFFFFF, region!(MIDDLE, 0, END, END)),
    (
        FIRST,
        2,
        0xBFFFFFFFFFFFFFFF,
        region!(MIDDLE, 0, END, 2147483647),
    ),
    (
        0xC000000000000000,
        2,
        0xFFFFFFFFFFFFFFFF,
        region!(MIDDLE, MIDDLE, END, END),
    ),
    (27, 64, 27, region!(3, 5, 3, 5)),
];

#[test]
fn a_name_has_its_region_and_its_keys(rt: HostRuntime) {
    for (bits, len, last, want) in REGIONS {
        expect_region(&rt, *bits, *len, *last, *want);
    }
}

#[test]
fn distances_are_sums_of_squares(rt: HostRuntime) {
    let origin = Point { x: 0, y: 0 };
    let end = Point { x: END, y: END };
    let right_low = corners(2147483648, 0, END, 2147483647);
    let far = 36893488130239234050;
    assert_same!(rt; (dist(origin, end), dist(end, origin)), (far, far));
    let low = Point { x: END, y: 7 };
    assert_same!(rt; (least(&right_low, origin), least(&right_low, low)), (4611686018427387904, 0));
}

#[test]
fn regions_that_share_an_edge_meet(rt: HostRuntime) {
    let left = corners(0, 0, 5, 9);
    let right = corners(5, 3, 8, 4);
    let apart = corners(6, 0, 8, 9);
    let meeting = [
        meets(&left, &right),
        meets(&right, &left),
        meets(&left, &apart),
    ];
    assert_same!(rt; meeting, [true, true, false]);
    let within = corners(1, 0, 5, 9);
    assert_same!(rt; (inside(&within, &left), inside(&right, &left)), (true, false));
}
