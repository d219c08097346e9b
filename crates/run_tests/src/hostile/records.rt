//! The bytes of a log, written and read as docs/FORMATS has them. This code shares nothing with the program's.
use plain_list::Stamped;
use std::alloc::{AllocError, Global};
use zorder::Point;

/// The header of a log whose splits create two children (width 1), or four (width 2).
pub fn header(width: u8) -> [u8; 16] {
    let mut bytes = *b"MDLOCLOG\x02\0\0\0\0\0\0\0";
    bytes[9] = width;
    bytes
}

/// How many leaves a split creates from one, by the width of its log.
pub fn children(width: u8) -> u64 {
    match width {
        2 => 4,
        _ => 2,
    }
}

pub const PUT: u8 = 1;

pub const MOVE: u8 = 2;

pub const DROP: u8 = 3;

pub const BEGIN: u8 = 4;

pub const INSTALL: u8 = 5;

pub const ABANDON: u8 = 6;

/// A record by its kind, its id or number, and the next eight bytes (a point, or a name's bits). Then a moment follows,
/// or the length of a name in one byte. One of the two is 0.
#[derive(Clone, Copy)]
pub struct Record {
    pub kind: u8,
    pub number: u64,
    pub place: u64,
    pub moment: u64,
    pub len: u8,
}

impl Record {
    /// A put or a move.
    pub fn at(kind: u8, id: u64, to: Stamped) -> Record {
        Record {
            kind,
            number: id,
            place: (to.at.x as u64) << 32 | to.at.y as u64,
            moment: to.moment,
            len: 0,
        }
    }

    /// A removal.
    pub fn of(kind: u8, number: u64) -> Record {
        Record {
            kind,
            number,
            place: 0,
            moment: 0,
            len: 0,
        }
    }

    pub fn bytes(&self) -> [u8; 32] {
        let mut bytes = [0; 32];
        bytes[0] = 1;
        bytes[1] = self.kind;
        bytes[2..10].copy_from_slice(&self.number.to_be_bytes());
        bytes[10..18].copy_from_slice(&self.place.to_be_bytes());
        bytes[18..26].copy_from_slice(&self.moment.to_be_bytes());
        if self.len != 0 {
            bytes[18] = self.len;
        }
        bytes
    }

    /// The position of a put or a move.
    pub fn position(&self) -> Stamped {
        let [a, b, c, d, e, f, g, h] = self.place.to_be_bytes();
        let at = Point {
            x: u32::from_be_bytes([a, b, c, d]),
            y: u32::from_be_bytes([e, f, g, h]),
        };
        Stamped {
            at,
            moment: self.moment,
        }
    }
}

/// A log of this width and these records, and these bytes after them.
pub fn log_of(
    alloc: Global,
    width: u8,
    records: &[Record],
    tail: &[u8],
) -> Result<Vec<u8>, AllocError> {
    let mut bytes = Vec::from_slice(alloc, header(width).as_slice())?;
    for record in records {
        bytes.extend_from_slice(record.bytes().as_slice())?;
    }
    bytes.extend_from_slice(tail)?;
    Ok(bytes)
}

/// How many of these records a file has, if it is a log of this width with the first of them and no others.
pub fn front(width: u8, file: &[u8], records: &[Record]) -> Option<usize> {
    let mut rest = file.strip_prefix(header(width).as_slice())?;
    let mut count: usize = 0;
    for record in records {
        match rest.strip_prefix(record.bytes().as_slice()) {
            Some(next) => rest = next,
            None => break,
        }
        count = count.saturating_add(1);
    }
    match rest.first() {
        Some(1) | None => None,
        Some(_) => Some(count),
    }
}
