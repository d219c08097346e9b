//! The fields of a record, column by column.
ghost use Rattle.std.specs.Prelude.{◌≡◌, ◌≢◌, ◌<◌, ◌∷◌, length, IfOk, MatchOption};
ghost use Rattle.std.specs.Cmp.Lexicographic.{pointwise};
ghost use Rattle.csv.specs.Records.{field_at, fields_of};
ghost use Rattle.csv_rows.specs.Columns.{AreKept, Fits, in_order};
ghost use Rattle.csv_rows.specs.Fields.{is_text, number_by, numbers_by, row_of, texts, word_of};
ghost use Rattle.csv_rows.specs.Rows.{is_header};
ghost use Rattle.csv_rows.specs.InRows.{IsInRow};

use crate::columns::{Columns, Rule, SESSION, WORDS, Word, op_of, rules_of, text_of};
use crate::numbers::number_in;
use crate::rows::{InRow, Wrong};
use csv::ByteRecord;

/// The fields of a row.
#[derive(Clone, Copy)]
pub(crate) struct Fields<'a> {
    pub session: &'a [u8],
    pub op: &'a [u8],
    pub columns: Columns<&'a [u8]>,
}

/// The fields of the header.
pub(crate) const HEADER: Fields<'static> = Fields {
    session: b"session",
    op: b"op",
    columns: Columns {
        id: b"id",
        x: b"x",
        y: b"y",
        a: b"a",
        b: b"b",
        moment: b"moment",
    },
};

/// Returns the row of a record, or what is wrong with the record.
pub(crate) fn row_of(record: &ByteRecord) -> Result<InRow, Wrong>
    ensures row { result ≡ row_of (fields_of record.now) }
    ensures rules { IfOk result IsInRow }
{
    let Some(fields) = fields_in(record) else {
        return Err(Wrong::Length);
    };
    let session = number_at(1, SESSION, fields.session)?;
    let Some(word) = word_of(fields.op) else {
        return Err(Wrong::Column(2));
    };
    let columns = numbers_of(word, &fields.columns)?;
    Ok(InRow {
        session: session as u8,
        op: op_of(word, columns),
    })
}

/// Returns whether a record is the header.
pub(crate) fn is_header(record: &ByteRecord) -> bool
    ensures { result ≡ is_header (fields_of record.now) }
{
    let Some(fields) = fields_in(record) else {
        return false;
    };
    fields.session == HEADER.session
        && fields.op == HEADER.op
        && are_same(&fields.columns, &HEADER.columns)
}

// Returns whether all columns have the same texts.
fn are_same(columns: &Columns<&[u8]>, others: &Columns<&[u8]>) -> bool
    ensures { result ≡ pointwise is_text (in_order (texts columns.now)) (in_order (texts others.now)) }
{
    columns.id == others.id
        && columns.x == others.x
        && columns.y == others.y
        && columns.a == others.a
        && columns.b == others.b
        && columns.moment == others.moment
}

fn fields_in(record: &ByteRecord) -> Option<Fields<'_>>
    ensures { MatchOption result (length (fields_of record.now) ≢ 8)
        (λ f. fields_of record.now ≡ f.session.now ∷ f.op.now ∷ in_order (texts f.columns)) }
{
    if record.len() != 8 {
        return None;
    }
    Some(Fields {
        session: field_in(record, 0),
        op: field_in(record, 1),
        columns: Columns {
            id: field_in(record, 2),
            x: field_in(record, 3),
            y: field_in(record, 4),
            a: field_in(record, 5),
            b: field_in(record, 6),
            moment: field_in(record, 7),
        },
    })
}

/// Returns the field with the index `place`.
pub fn field_in(record: &ByteRecord, place: usize) -> &[u8]
    requires { place < length (fields_of record.now) }
    ensures { field_at (fields_of record.now) place ≡ Some result.now }
{
    match record.get(place) {
        Some(field) => field,
        None => unreachable!(),
    }
}

fn word_of(field: &[u8]) -> Option<Word>
    ensures { result ≡ word_of field.now }
{
    WORDS
        .iter()
        .copied()
        .find(|word| is_text(field, text_of(*word)))
}

/// Returns whether a field is this text.
pub fn is_text(field: &[u8], text: &str) -> bool
    ensures { result ≡ is_text field.now text.now }
{
    field == text.as_bytes()
}

// Returns the numbers of the columns after a word, or the leftmost column that breaks its rule.
fn numbers_of(word: Word, fields: &Columns<&[u8]>) -> Result<Columns<u64>, Wrong>
    ensures numbers { result ≡ numbers_by word (texts fields.now) }
    ensures kept { IfOk result (AreKept word) }
{
    let rules = rules_of(word, 0, 0);
    let id = number_at(3, rules.id, fields.id)?;
    let x = number_at(4, rules.x, fields.x)?;
    let y = number_at(5, rules.y, fields.y)?;
    let rules = rules_of(word, x, y);
    let a = number_at(6, rules.a, fields.a)?;
    let b = number_at(7, rules.b, fields.b)?;
    let moment = number_at(8, rules.moment, fields.moment)?;
    Ok(Columns {
        id,
        x,
        y,
        a,
        b,
        moment,
    })
}

/// Returns the number of a field, which is 0 for the rule `Empty`, or its column if the field breaks the rule.
pub fn number_at(column: u8, rule: Rule, field: &[u8]) -> Result<u64, Wrong>
    ensures number { result ≡ number_by column rule field.now }
    ensures fits { IfOk result (Fits rule) }
{
    match rule {
        Rule::Empty if field.is_empty() => Ok(0),
        Rule::Empty => Err(Wrong::Column(column)),
        Rule::Between { low, high } => match number_in(field, low, high) {
            Some(number) => Ok(number),
            None => Err(Wrong::Column(column)),
        },
    }
}
