//! Reading rows in exactly the form that `write_rows` gives them, in one pass over the bytes.
//!
//! Most inputs have this form: no quotes, lines that end with a line feed, numbers without leading zeros. For any other
//! text, and for a text with a fault, this module returns nothing. Then `read` lets `csv` decide.
//!
//! The functions return early by `let else` instead of `?`. For a part that is an `Option`, `?` takes twice the proof.
ghost use Rattle.std.specs.Prelude.{◌≡◌, ◌≢◌, ◌≤◌, ◌<◌, ℕ, List, ◌++◌, codes, IfOk, IfErr, IfSome, MatchOption};
ghost use Rattle.std.specs.Fmt.{decimal};
ghost use Rattle.plain_list.specs.Answer.{IsValid, FitsOp};
ghost use Rattle.csv_rows.specs.InRows.{AreInRows, IsInRow};
ghost use Rattle.csv_rows.specs.Columns.{AreKept, Fits, column_texts, text_by};
ghost use Rattle.csv_rows.specs.RowLines.{header_line, line_then, op_tail, row_line, rows_text};

use crate::columns::{Columns, Rule, SESSION, Word, op_of, rules_of, text_of};
use crate::numbers::front_number;
use crate::pieces::Piece;
use crate::read::MOST_ROWS;
use crate::row_lines::add_header;
use crate::rows::{InRow, Rows, RowsFault};
use plain_list::Op;
use std::alloc::Global;

// The number of bytes in a row by which memory for all rows is taken at the start.
const BYTES_A_ROW: usize = 32;

/// Returns the rows of a text, if it is exactly the text that `write_rows` writes for them.
pub(crate) fn written_rows(alloc: Global, text: &[u8]) -> Result<Option<Rows>, RowsFault>
    ensures rows { IfOk result (λ o. IfSome o (λ rows. (text.now ≡ rows_text rows) × AreInRows rows)) }
    ensures fault { IfErr result (λ e. e ≡ RowsFault.Memory) }
{
    let Some(lines) = behind_header(text) else {
        return Ok(None);
    };
    let room = (lines.len() / BYTES_A_ROW).min(MOST_ROWS as usize);
    let mut rows = Vec::with_capacity(alloc, room)?;
    let mut rest = lines;
    for _ in 0..MOST_ROWS {
        if rest.is_empty() {
            break;
        }
        let Some((row, behind)) = take_row(rest) else {
            return Ok(None);
        };
        rows.push(row)?;
        rest = behind;
    }
    if !rest.is_empty() {
        return Ok(None);
    }
    Ok(Some(Rows::from_vec(rows)))
}

fn behind_header(text: &[u8]) -> Option<&[u8]>
    ensures { IfSome result (λ lines. text.now ≡ header_line ++ lines.now) }
{
    let mut header = Piece::new();
    add_header(&mut header);
    behind_front(text, header.as_slice())
}

#[inline(always)]
fn behind_front<'a>(text: &'a [u8], front: &[u8]) -> Option<&'a [u8]>
    ensures { MatchOption result ((rest : List ℕ) → text.now ≢ front.now ++ rest) (λ rest. text.now ≡ front.now ++ rest.now) }
{
    text.strip_prefix(front)
}

// Returns a row, and the text after its line.
fn take_row(text: &[u8]) -> Option<(InRow, &[u8])>
    ensures line { IfSome result (λ p. text.now ≡ row_line p.0 ++ p.1.now) }
    ensures rules { IfSome result (λ p. IsInRow p.0) }
{
    let Some((session, rest)) = take_field(SESSION, text) else {
        return None;
    };
    let Some((op, rest)) = take_op(rest) else {
        return None;
    };
    let row = InRow {
        session: session as u8,
        op,
    };
    Some((row, rest))
}

// Returns the operation that the fields after the session say, and the text after their line.
fn take_op(text: &[u8]) -> Option<(Op, &[u8])>
    ensures tail { IfSome result (λ p. text.now ≡ op_tail p.0 ++ p.1.now) }
    ensures rules { IfSome result (λ p. IsValid p.0 × FitsOp p.0) }
{
    let [b',', rest @ ..] = text else {
        return None;
    };
    let [first, ..] = rest else {
        return None;
    };
    // Each word has code of its own, in which its rules are constants.
    match *first {
        b'p' => take_as(Word::Put, rest),
        b'm' => take_as(Word::Move, rest),
        b'd' => take_as(Word::Drop, rest),
        b'w' => take_as(Word::Where, rest),
        b'b' => take_as(Word::Box, rest),
        b'n' => take_as(Word::Near, rest),
        _ => None,
    }
}

// The same for a text that begins with this word.
#[inline(always)]
fn take_as(word: Word, text: &[u8]) -> Option<(Op, &[u8])>
    ensures tail { IfSome result (λ p. codes "," ++ text.now ≡ op_tail p.0 ++ p.1.now) }
    ensures rules { IfSome result (λ p. IsValid p.0 × FitsOp p.0) }
{
    let Some(rest) = behind_front(text, text_of(word).as_bytes()) else {
        return None;
    };
    let Some((columns, rest)) = take_columns(word, rest) else {
        return None;
    };
    Some((op_of(word, columns), rest))
}

// Returns the columns after a word, and the text after their line.
#[inline(always)]
fn take_columns(word: Word, text: &[u8]) -> Option<(Columns<u64>, &[u8])>
    ensures texts { IfSome result (λ p. text.now ≡ line_then (column_texts word p.0) p.1.now) }
    ensures kept { IfSome result (λ p. AreKept word p.0) }
{
    let rules = rules_of(word, 0, 0);
    let Some((id, rest)) = take_column(rules.id, text) else {
        return None;
    };
    let Some((x, rest)) = take_column(rules.x, rest) else {
        return None;
    };
    let Some((y, rest)) = take_column(rules.y, rest) else {
        return None;
    };
    let rules = rules_of(word, x, y);
    let Some((a, rest)) = take_column(rules.a, rest) else {
        return None;
    };
    let Some((b, rest)) = take_column(rules.b, rest) else {
        return None;
    };
    let Some((moment, rest)) = take_column(rules.moment, rest) else {
        return None;
    };
    let [b'\n', rest @ ..] = rest else {
        return None;
    };
    let columns = Columns {
        id,
        x,
        y,
        a,
        b,
        moment,
    };
    Some((columns, rest))
}

// Returns the number of a column after a comma, if it keeps the rule, and the text after it.
#[inline(always)]
fn take_column(rule: Rule, text: &[u8]) -> Option<(u64, &[u8])>
    ensures text { IfSome result (λ p. text.now ≡ codes "," ++ (text_by rule p.0 ++ p.1.now)) }
    ensures fits { IfSome result (λ p. Fits rule p.0) }
{
    let [b',', rest @ ..] = text else {
        return None;
    };
    take_field(rule, rest)
}

// The same without a comma.
#[inline(always)]
fn take_field(rule: Rule, text: &[u8]) -> Option<(u64, &[u8])>
    ensures text { IfSome result (λ p. text.now ≡ text_by rule p.0 ++ p.1.now) }
    ensures fits { IfSome result (λ p. Fits rule p.0) }
{
    match rule {
        Rule::Empty => Some((0, text)),
        Rule::Between { low, high } => take_number(text, low, high),
    }
}

// Returns a number from `low` to `high`, and the text after it. The number has no leading zero and at most 19 digits.
fn take_number(text: &[u8], low: u64, high: u64) -> Option<(u64, &[u8])>
    ensures text { IfSome result (λ p. text.now ≡ decimal p.0 ++ p.1.now) }
    ensures between { IfSome result (λ p. (low ≤ p.0) × (p.0 ≤ high)) }
{
    let (number, len) = front_number(text);
    if len == 0 {
        return None;
    }
    if text[0] == b'0' && len > 1 {
        return None;
    }
    if number < low || high < number {
        return None;
    }
    Some((number, &text[len..]))
}
