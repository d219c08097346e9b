//! Texts that go to a sink in pieces of up to 64 KiB. The buffer takes no heap memory.
ghost use Rattle.std.specs.Prelude.{◌≡◌, ◌≤◌, ◌+◌, ◌∷◌, ◌++◌, ◌<◌, [], codes, drop, length, OnOk};
ghost use Rattle.std.specs.Fmt.{decimal};
ghost use Rattle.arrayvec.specs.ArrayVec.{array_vec_len};
ghost use Rattle.causes.specs.Causes.{Counts};
ghost use Rattle.csv_rows.specs.Lines.{placed_text};
ghost use Rattle.csv_rows.specs.Pieces.{HoldsBack};

use arrayvec::ArrayVec;
use io_edge::{Sink, SinkFault};
use itoa::{Buffer, write_digits};
use plain_list::Stamped;
use zorder::Placed;

/// A buffer for one piece, which is put when it is nearly full. Its bytes are in the value itself.
pub type Piece = ArrayVec<u8, 65536>;

// A piece with at most this many bytes has room for one more entry, which has at most 144 bytes.
const ROOM_FOR_ONE: usize = 65_392;

/// Puts the piece if it is nearly full, and empties it. If the put fails, the bytes of the piece are lost.
pub fn make_room<K: Sink>(sink: &mut K, piece: &mut Piece) -> Result<(), SinkFault>
    ensures bytes { HoldsBack (K.output sink.old).taken (K.output sink.new).taken piece.old.items piece.new.items result }
    ensures cause { Counts (K.output sink.old).faults (K.output sink.new).faults result }
    ensures room { OnOk result (array_vec_len piece.new ≤ 65392) }
{
    if piece.len() <= ROOM_FOR_ONE {
        return Ok(());
    }
    let put = sink.put(piece.as_slice());
    piece.clear();
    put
}

/// Adds a text, for which there is room.
pub fn push_str(piece: &mut Piece, text: &str)
    requires { array_vec_len piece.old + length text.now ≤ 65536 }
    ensures bytes { piece.new.items ≡ piece.old.items ++ text.now }
    ensures len { array_vec_len piece.new ≡ array_vec_len piece.old + length text.now }
{
    push_bytes(piece, text.as_bytes());
}

/// Adds bytes, for which there is room.
pub(crate) fn push_bytes(piece: &mut Piece, bytes: &[u8])
    requires { array_vec_len piece.old + length bytes.now ≤ 65536 }
    ensures bytes { piece.new.items ≡ piece.old.items ++ bytes.now }
    ensures len { array_vec_len piece.new ≡ array_vec_len piece.old + length bytes.now }
{
    // There is room for them.
    let _ = piece.try_extend_from_slice(bytes);
}

/// Adds a decimal number.
pub fn add_number(piece: &mut Piece, number: u64)
    requires { array_vec_len piece.old ≤ 65516 }
    ensures bytes { piece.new.items ≡ piece.old.items ++ decimal number }
    ensures len { array_vec_len piece.new ≤ array_vec_len piece.old + 20 }
{
    let mut buffer = Buffer::new();
    push_str(piece, buffer.format(number));
}

/// Adds two numbers with a mark between them, in one copy.
pub fn add_pair(piece: &mut Piece, first: u64, mark: u8, second: u64)
    requires { array_vec_len piece.old ≤ 65495 }
    ensures bytes { piece.new.items ≡ piece.old.items ++ decimal first ++ (mark ∷ []) ++ decimal second }
    ensures len { array_vec_len piece.new ≤ array_vec_len piece.old + 41 }
{
    let mut text = [0; 41];
    let behind = write_marked(&mut text, mark, second, 41);
    let start = write_digits(first, &mut text, behind);
    push_bytes(piece, &text[start..]);
}

/// Adds both coordinates and the moment, with a mark between each two, in one copy.
pub(crate) fn add_stamped(piece: &mut Piece, kept: Stamped, mark: u8)
    requires { array_vec_len piece.old ≤ 65474 }
    ensures bytes { piece.new.items ≡ piece.old.items ++ decimal kept.at.x ++ (mark ∷ []) ++ decimal kept.at.y
        ++ (mark ∷ []) ++ decimal kept.moment }
    ensures len { array_vec_len piece.new ≤ array_vec_len piece.old + 62 }
{
    let mut text = [0; 62];
    let moment = write_marked(&mut text, mark, kept.moment, 62);
    let y = write_marked(&mut text, mark, u64::from(kept.at.y), moment);
    let start = write_digits(u64::from(kept.at.x), &mut text, y);
    push_bytes(piece, &text[start..]);
}

/// Adds an id and its point, as `id:x:y`.
pub(crate) fn add_placed(piece: &mut Piece, placed: &Placed)
    requires { array_vec_len piece.old ≤ 65473 }
    ensures bytes { piece.new.items ≡ piece.old.items ++ placed_text placed.now }
    ensures len { array_vec_len piece.new ≤ array_vec_len piece.old + 62 }
{
    let mut text = [0; 63];
    let mark = write_listed(&mut text, placed);
    push_bytes(piece, &text[mark + 1..]);
}

/// Adds a semicolon, an id and its point. It makes one copy, since a list may have thousands of points.
pub(crate) fn add_listed(piece: &mut Piece, placed: &Placed)
    requires { array_vec_len piece.old ≤ 65392 }
    ensures bytes { piece.new.items ≡ piece.old.items ++ (codes ";" ++ placed_text placed.now) }
    ensures len { array_vec_len piece.new ≤ array_vec_len piece.old + 63 }
{
    let mut text = [0; 63];
    let mark = write_listed(&mut text, placed);
    push_bytes(piece, &text[mark..]);
}

// Writes a semicolon, an id and its point at the end of the text, and returns the index at which they start.
fn write_listed(text: &mut [u8; 63], placed: &Placed) -> usize
    ensures text { drop result text.new ≡ codes ";" ++ placed_text placed.now }
    ensures start { result < 63 }
{
    let y = write_marked(text, b':', u64::from(placed.at.y), 63);
    let x = write_marked(text, b':', u64::from(placed.at.x), y);
    write_marked(text, b';', placed.id, x)
}

// Writes a mark and a number so that they end at `end`, and returns the index at which they start.
fn write_marked(text: &mut [u8], mark: u8, number: u64, end: usize) -> usize
    requires room { 21 ≤ end }
    requires within { end ≤ length text.old }
    ensures text { drop result text.new ≡ mark ∷ decimal number ++ drop end text.old }
    ensures length { length text.new ≡ length text.old }
    ensures start { end ≤ result + 21 }
    ensures within { result ≤ end }
{
    let start = write_digits(number, text, end) - 1;
    text[start] = mark;
    start
}
