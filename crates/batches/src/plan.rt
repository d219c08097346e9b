//! The plan of a measurement: which moves are made.
use pisrakun::Point;
use std::env::Args;
use std::time::Duration;

// Objects are taken in an order that is spread over all of them.
const STRIDE: u64 = 40_503;

/// How many objects there are, and how many moves are made.
#[derive(Clone, Copy)]
pub struct Plan {
    pub objects: u64,
    pub threads: u8,
    /// How many moves a batch has.
    pub size: u64,
    /// How many batches each thread makes.
    pub batches: u64,
    /// How long records wait for a sync, if they wait.
    pub pause: Option<Duration>,
}

/// A move: which object, to which point, at which moment.
#[derive(Clone, Copy)]
pub struct Planned {
    pub id: u64,
    pub at: Point,
    pub moment: u64,
}

fn number(word: Option<String>, most: u64) -> u64 {
    match word {
        Some(word) => word.parse::<u64>().unwrap_or(1).min(most).max(1),
        None => 1,
    }
}

// A time in milliseconds, a minute at most.
fn millis(word: String) -> Duration {
    Duration::from_millis(number(Some(word), 60_000))
}

impl Plan {
    /// A plan that is done in some milliseconds.
    pub fn small() -> Plan {
        Plan {
            objects: 1_024,
            threads: 2,
            size: 16,
            batches: 32,
            pause: None,
        }
    }

    /// The plan of the words `SIZE THREADS CHANGES [MILLIS]`.
    pub fn of_words(words: &mut Args) -> Plan {
        let size = number(words.next(), 65_536);
        let threads = number(words.next(), 16).min(16) as u8;
        let changes = number(words.next(), 4_000_000);
        let pause = words.next().map(|word| millis(word));
        Plan {
            objects: 65_536,
            threads,
            size,
            batches: changes / u64::from(threads).max(1) / size.max(1),
            pause,
        }
    }

    /// A thread's move of this number, both counted from 0. Each thread moves objects of its own.
    pub fn planned(&self, thread: u64, number: u64) -> Planned {
        let threads = u64::from(self.threads);
        let own = (self.objects / threads.max(1)).max(1);
        let object = number.wrapping_mul(STRIDE) % own;
        let among_all = number.wrapping_mul(threads).wrapping_add(thread);
        Planned {
            id: object.wrapping_mul(threads).wrapping_add(thread),
            at: point_of(self.objects.wrapping_add(among_all)),
            moment: among_all.wrapping_add(1),
        }
    }
}

/// A point that a number determines (`splitmix64`).
pub fn point_of(number: u64) -> Point {
    let mut mixed = number.wrapping_mul(0x9e37_79b9_7f4a_7c15);
    mixed = (mixed ^ (mixed >> 30)).wrapping_mul(0xbf58_476d_1ce4_e5b9);
    mixed = (mixed ^ (mixed >> 27)).wrapping_mul(0x94d0_49bb_1331_11eb);
    mixed ^= mixed >> 31;
    Point {
        x: u32::try_from(mixed >> 32).unwrap_or(u32::MAX),
        y: (mixed & 0xffff_ffff) as u32,
    }
}
