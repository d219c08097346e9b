//! Turns as rows of a text.
ghost use Rattle.std.specs.Prelude.{◌≡◌, ◌≢◌, ◌<◌, ◌∷◌, [], Ok, Err, IfOk, IfErr, MatchOption, length};
ghost use Rattle.csv.specs.Records.{fields_of};
ghost use Rattle.csv_rows.specs.Tables.{is_header_of};
ghost use Rattle.follower.specs.Follow.{packets_after, acks_after};
ghost use Rattle.follow_run.specs.TurnRows.{turn_by, turn_in, turn_table, turns_of_text};

use csv::ByteRecord;
use csv_rows::{ID, ReadsRow, RowsFault, Rule, Wrong, field_in, is_text, number_at, read_table};
use follower::{Turn, Turns};
use std::alloc::Global;

const MOST_TURNS: u32 = 65_536;

/// The turns of a text: the header `turn,number`, and then at most 65,536 rows of two fields.
///
/// The text may begin with one byte order mark. Empty lines are no records, and numbers may have leading zeros.
pub fn read_turns(alloc: Global, bytes: &[u8]) -> Result<Turns, RowsFault>
    ensures rows { IfOk result (λ turns. turns_of_text bytes.now ≡ Ok turns) }
    ensures fault { IfErr result (λ e. e ≢ RowsFault.Memory → turns_of_text bytes.now ≡ Err e) }
{
    let none = Sent {
        packets: 0,
        acks: 0,
    };
    let turns = read_table(alloc, bytes, none)?;
    Ok(Turns::from_vec(turns))
}

// How many packets and acknowledgements the turns so far send.
#[derive(Clone, Copy)]
struct Sent {
    packets: u32,
    acks: u32,
}

impl ReadsRow for Sent {
    ghost use Rattle.std.specs.Prelude.{◌≡◌};
    ghost use Rattle.follow_run.specs.TurnRows.{acks_of, packets_of, turn_table};

    type Row = Turn;

    ghost table = { turn_table };

    ghost knows = { λ sent turns. (sent.packets ≡ packets_of turns) × (sent.acks ≡ acks_of turns) };

    fn most(&self) -> u32 {
        MOST_TURNS
    }

    fn is_header(&self, fields: &ByteRecord) -> bool {
        is_header(fields)
    }

    fn row(&mut self, _earlier: &[Turn], fields: &ByteRecord) -> Result<Turn, Wrong> {
        let turn = turn_in(*self, fields)?;
        *self = sent_after(*self, turn);
        Ok(turn)
    }
}

// What was sent after a turn.
fn sent_after(sent: Sent, turn: Turn) -> Sent
    requires packets { sent.packets < 65536 }
    requires acks { sent.acks < 65536 }
    ensures packets { result.packets ≡ packets_after sent.packets turn }
    ensures acks { result.acks ≡ acks_after sent.acks turn }
{
    match turn {
        Turn::Send { .. } => Sent {
            packets: sent.packets + 1,
            acks: sent.acks,
        },
        Turn::Arrive { .. } => Sent {
            packets: sent.packets,
            acks: sent.acks + 1,
        },
        Turn::Ack { .. } | Turn::Restart => sent,
    }
}

// The fields of a turn.
#[derive(Clone, Copy)]
struct Fields<'a> {
    word: &'a [u8],
    number: &'a [u8],
}

fn fields_in(fields: &ByteRecord) -> Option<Fields<'_>>
    ensures { MatchOption result (length (fields_of fields.now) ≢ 2) (λ f. fields_of fields.now ≡ f.word.now ∷ f.number.now ∷ []) }
{
    if fields.len() != 2 {
        return None;
    }
    Some(Fields {
        word: field_in(fields, 0),
        number: field_in(fields, 1),
    })
}

fn is_header(fields: &ByteRecord) -> bool
    ensures { result ≡ is_header_of turn_table (fields_of fields.now) }
{
    let Some(fields) = fields_in(fields) else {
        return false;
    };
    is_text(fields.word, "turn") && is_text(fields.number, "number")
}

// The turn of a record after these packets and acknowledgements, or what is wrong with it.
fn turn_in(sent: Sent, fields: &ByteRecord) -> Result<Turn, Wrong>
    ensures { result ≡ turn_in sent.packets sent.acks (fields_of fields.now) }
{
    let Some(fields) = fields_in(fields) else {
        return Err(Wrong::Length);
    };
    turn_by(sent, &fields)
}

// The turn of a word and a number, or the leftmost faulty column.
fn turn_by(sent: Sent, fields: &Fields<'_>) -> Result<Turn, Wrong>
    ensures { result ≡ turn_by sent.packets sent.acks fields.now.word.now fields.now.number.now }
{
    if is_text(fields.word, "send") {
        let cell = number_at(2, ID, fields.number)?;
        return Ok(Turn::Send { cell });
    }
    if is_text(fields.word, "arrive") {
        let packet = number_at(2, one_of(sent.packets), fields.number)?;
        return Ok(Turn::Arrive {
            packet: packet as u32,
        });
    }
    if is_text(fields.word, "ack") {
        let number = number_at(2, one_of(sent.acks), fields.number)?;
        return Ok(Turn::Ack {
            number: number as u32,
        });
    }
    if is_text(fields.word, "restart") {
        number_at(2, Rule::Empty, fields.number)?;
        return Ok(Turn::Restart);
    }
    Err(Wrong::Column(1))
}

// One of `count`, counted from 1.
fn one_of(count: u32) -> Rule
    ensures { result ≡ Rule.Between 1 count }
{
    Rule::Between {
        low: 1,
        high: u64::from(count),
    }
}
