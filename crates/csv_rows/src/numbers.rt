//! Reading decimal numbers from bytes.
ghost use Rattle.std.specs.Prelude.{◌≡◌, ◌≤◌, ◌<◌, true, false, get_or, length, take, SomeIff};
ghost use Rattle.std.specs.Char.{is_ascii_digit};
ghost use Rattle.std.specs.List.{list_all};
ghost use Rattle.std.specs.Str.Parse.{digits_value};
ghost use Rattle.csv_rows.specs.Numbers.{FitsWord, number_in};

// Each number with this many digits fits in 64 bits.
const MOST_DIGITS: usize = 19;

/// Returns the number of a field with 1 to 20 digits, if it is from `low` to `high`. Leading zeros are allowed.
pub fn number_in(field: &[u8], low: u64, high: u64) -> Option<u64>
    ensures { result ≡ number_in low high field.now }
{
    if field.is_empty() {
        return None;
    }
    if field.len() > 20 {
        return None;
    }
    let value = value_of(field)?;
    if value < low {
        return None;
    }
    if high < value {
        return None;
    }
    Some(value)
}

// Returns the number of 1 to 20 bytes, if all are digits and the number fits in 64 bits. Only the last digit can make
// it too large.
fn value_of(bytes: &[u8]) -> Option<u64>
    requires some { 1 ≤ length bytes.now }
    requires few { length bytes.now ≤ 20 }
    ensures { SomeIff result (FitsWord bytes.now) (digits_value 10 bytes.now) }
{
    let end = bytes.len() - 1;
    let last = bytes[end];
    if !last.is_ascii_digit() {
        return None;
    }
    let front = front_value(&bytes[..end])?;
    let tens = front.checked_mul(10)?;
    let value = tens.checked_add(u64::from(last - b'0'))?;
    Some(value)
}

// The same for at most 19 bytes, whose number always fits.
fn front_value(bytes: &[u8]) -> Option<u64>
    requires { length bytes.now ≤ 19 }
    ensures { SomeIff result (list_all is_ascii_digit bytes.now ≡ true) (digits_value 10 bytes.now) }
{
    let (value, len) = front_number(bytes);
    if len < bytes.len() {
        return None;
    }
    Some(value)
}

/// Returns the number of the digits at the front of a text, and how many digits these are. It reads at most 19, which
/// always fit.
pub(crate) fn front_number(text: &[u8]) -> (u64, usize)
    ensures value { result.0 ≡ digits_value 10 (take result.1 text.now) }
    ensures digits { list_all is_ascii_digit (take result.1 text.now) ≡ true }
    ensures few { (result.1 ≤ length text.now) × (result.1 ≤ 19) }
    ensures all { result.1 < length text.now → result.1 < 19 → is_ascii_digit (get_or text.now result.1 0) ≡ false }
{
    // Nearly all numbers are far from the end of the text. For them, the number of iterations is constant.
    if text.len() < MOST_DIGITS {
        front_digits(text, text.len())
    } else {
        front_digits(text, MOST_DIGITS)
    }
}

// The same for at most `most` bytes.
#[inline(always)]
fn front_digits(text: &[u8], most: usize) -> (u64, usize)
    requires within { most ≤ length text.now }
    requires few { most ≤ 19 }
    ensures value { result.0 ≡ digits_value 10 (take result.1 text.now) }
    ensures digits { list_all is_ascii_digit (take result.1 text.now) ≡ true }
    ensures few { result.1 ≤ most }
    ensures all { result.1 < most → is_ascii_digit (get_or text.now result.1 0) ≡ false }
{
    let mut value: u64 = 0;
    for len in 0..most {
        let byte = text[len];
        if !byte.is_ascii_digit() {
            return (value, len);
        }
        value = value * 10 + u64::from(byte - b'0');
    }
    (value, most)
}
