//! Where each van is and when, and the change that each report should make.
use pisrakun::{Change, Fence, Point, Region, Stamped};

/// How many rounds a day has. In each, a driver reports each van once.
pub const ROUNDS: u32 = 9;

/// How many vans a driver has.
pub const VANS: u32 = 30;

// The last round, when each van is back where it began. A van drives away until half of the rounds are over.
const LAST: u32 = ROUNDS - 1;

// Where each driver's quarter begins.
const LOW: u32 = 1_000_000_000;

const HIGH: u32 = 3_300_000_000;

/// A day, named by the moment at which it begins.
#[derive(Clone, Copy)]
pub struct Day {
    morning: u64,
}

// The corner of a driver's quarter.
fn corner(driver: u8) -> Point {
    match driver {
        1 => Point { x: LOW, y: LOW },
        2 => Point { x: HIGH, y: LOW },
        3 => Point { x: LOW, y: HIGH },
        _ => Point { x: HIGH, y: HIGH },
    }
}

/// The yard of a driver's quarter. The vans are there in the first two rounds and the last two.
pub fn yard(driver: u8) -> Fence {
    let lo = corner(driver);
    let hi = Point {
        x: lo.x.saturating_add(1),
        y: lo.y.saturating_add(VANS),
    };
    Fence {
        id: u64::from(driver),
        region: Region { lo, hi },
    }
}

/// The id of a driver's van.
pub fn id_of(driver: u8, van: u32) -> u64 {
    u64::from(driver) * 100 + u64::from(van)
}

impl Day {
    /// The day that begins after this moment.
    pub fn behind(latest: u64) -> Day {
        Day {
            morning: latest.saturating_add(1),
        }
    }

    /// The day after this one.
    pub fn next(&self) -> Day {
        Day::behind(self.morning.saturating_add(u64::from(LAST)))
    }

    /// Where a van is in a round, and when.
    pub fn place(&self, driver: u8, round: u32, van: u32) -> Stamped {
        let corner = corner(driver);
        let away = round.min(LAST.saturating_sub(round));
        let at = Point {
            x: corner.x.saturating_add(away),
            y: corner.y.saturating_add(van),
        };
        Stamped {
            at,
            moment: self.morning.saturating_add(u64::from(round)),
        }
    }

    /// Whether a change of a round is what a driver's report makes, whatever the other drivers do. In the first round a
    /// van may be new.
    pub fn is_good(&self, driver: u8, round: u32, van: u32, change: &Change) -> bool {
        let now = self.place(driver, round, van).at;
        let before = self.place(driver, round.saturating_sub(1), van).at;
        let is_new = round == 0 && change.before.is_none();
        change.id == id_of(driver, van)
            && change.after == Some(now)
            && (is_new || change.before == Some(before))
    }
}
