//! Encoding: from a record to its 32 bytes.
ghost use Rattle.std.specs.Prelude.{◌≡◌, ℕ, List, ◌≤◌, [], ◌∷◌, length};
ghost use Rattle.zorder.specs.Key.{IsPoint};
ghost use Rattle.cell_format.specs.Spelling.{newest, Spells, body, header_text, name_bytes, position_bytes};

use crate::cell::Cell;
use crate::kinds;
use zorder::{Name, Point};

#[tactic(auto, unfolding(crate::specs::Spelling::header_text))]
/// Returns the header of a log of this version, whose splits make `2 ^ width` children.
pub fn header(version: u8, width: u8) -> [u8; 16]
    ensures { result ≡ header_text version width }
{
    let mut bytes = [0; 16];
    bytes[..8].copy_from_slice(b"MDLOCLOG");
    bytes[8] = version;
    bytes[9] = width;
    bytes
}

#[tactic(auto, unfolding(crate::specs::Spelling::body_of))]
/// Returns the bytes of a record in a log of version 2, with the commit byte set.
pub fn encode(cell: &Cell) -> [u8; 32]
    ensures spells { Spells newest cell.now result }
    ensures one { (bytes : List ℕ) → Spells newest cell.now bytes → bytes ≡ result }
{
    match *cell {
        Cell::Put { id, at, moment } => with_position(kinds::PUT, id, at, moment),
        Cell::Move { id, at, moment } => with_position(kinds::MOVE, id, at, moment),
        Cell::Remove { id } => with_number(kinds::REMOVE, id),
        Cell::Begin { number, name } => with_name(number, &name),
        Cell::Install { number } => with_number(kinds::INSTALL, number),
        Cell::Abandon { number } => with_number(kinds::ABANDON, number),
    }
}

fn with_number(kind: u8, number: u64) -> [u8; 32]
    ensures { result ≡ 1 ∷ body kind number [] 22 }
{
    let mut bytes = [0; 32];
    bytes[0] = 1;
    bytes[1] = kind;
    bytes[2..10].copy_from_slice(&number.to_be_bytes());
    bytes
}

fn with_position(kind: u8, id: u64, at: Point, moment: u64) -> [u8; 32]
    ensures spelled { result ≡ 1 ∷ body kind id (position_bytes at moment) 6 }
    ensures fits { IsPoint at }
{
    let mut bytes = with_number(kind, id);
    bytes[10..14].copy_from_slice(&at.x.to_be_bytes());
    bytes[14..18].copy_from_slice(&at.y.to_be_bytes());
    bytes[18..26].copy_from_slice(&moment.to_be_bytes());
    bytes
}

fn with_name(number: u64, name: &Name) -> [u8; 32]
    ensures spelled { result ≡ 1 ∷ body 4 number (name_bytes name.now) 13 }
    ensures short { length name.now ≤ 64 }
{
    let mut bytes = with_number(kinds::BEGIN, number);
    bytes[10..18].copy_from_slice(&name.bits().to_be_bytes());
    bytes[18] = name.len();
    bytes
}
