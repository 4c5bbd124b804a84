// Numbers in decimal digits, by hand: std's `parse` takes a text, and to make one of bytes goes over all of them,
// where these stop at the first that is no digit.
ghost use Rattle.std.specs.Prelude.{◌≡◌, ◌≤◌, pos, neg_ℤ};
ghost use Rattle.std.specs.Option.{option_map};
ghost use Rattle.reading.specs.Numerals.{one_more, digits_of, after_sign, unsigned_of, number_of, width_of, signed_of};

use crate::fault::Unread;

// How large a number with a sign may be, above zero and below.
const MOST_ABOVE: usize = 2147483647;

const MOST_BELOW: usize = 2147483648;

// The number with one more digit, where it is at most `most`.
fn appended(value: usize, code: u8, most: usize) -> Result<usize, Unread>
    ensures { result ≡ one_more most value code }
{
    if code < b'0' || code > b'9' {
        return Err(Unread::Number);
    }
    let next = value as u128 * 10 + (code - b'0') as u128;
    if next > most as u128 {
        return Err(Unread::Number);
    }
    Ok(next as usize)
}

// The number that one digit or more write, where it is at most `most`.
fn digits(text: &[u8], most: usize) -> Result<usize, Unread>
    ensures { result ≡ digits_of most text.now }
{
    if text.is_empty() {
        return Err(Unread::Number);
    }
    let mut value = 0;
    for code in text {
        value = appended(value, *code, most)?;
    }
    Ok(value)
}

// What follows a sign, where the text begins with it.
fn after(text: &[u8], sign: u8) -> Option<&[u8]>
    ensures { option_map (λ x. x.now) result ≡ after_sign sign text.now }
{
    if !text.is_empty() && text[0] == sign {
        return Some(&text[1..]);
    }
    None
}

// A number that is at most `most`; a plus may stand before it.
fn unsigned(text: &[u8], most: usize) -> Result<usize, Unread>
    ensures { result ≡ unsigned_of most text.now }
{
    match after(text, b'+') {
        Some(rest) => digits(rest, most),
        None => digits(text, most),
    }
}

// A number without sign.
pub fn number(text: &[u8]) -> Result<usize, Unread>
    ensures { result ≡ number_of text.now }
{
    unsigned(text, usize::MAX)
}

// A width in bits.
pub fn width(text: &[u8]) -> Result<u32, Unread>
    ensures { result ≡ width_of text.now }
{
    Ok(unsigned(text, u32::MAX as usize)? as u32)
}

// The number of that size below zero.
fn negative(size: usize) -> i32
    requires { size ≤ 2147483648 }
    ensures { result ≡ neg_ℤ (pos size) }
{
    -(size as i64) as i32
}

// A number of 32 bits; a plus or a minus may stand before it.
pub(crate) fn signed(text: &[u8]) -> Result<i32, Unread>
    ensures { result ≡ signed_of text.now }
{
    match after(text, b'-') {
        Some(rest) => Ok(negative(digits(rest, MOST_BELOW)?)),
        None => Ok(unsigned(text, MOST_ABOVE)? as i32),
    }
}
