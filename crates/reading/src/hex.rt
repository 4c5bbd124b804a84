// Bytes as a script writes them: pairs of hexadecimal digits, and `-` for none.
ghost use Rattle.std.specs.Prelude.{◌≡◌, vec_items};
ghost use Rattle.reading.specs.Hex.{byte_of, bytes_of, digit_value};
ghost use Rattle.reading.specs.Memory.{faulty, Spared};
ghost use Rattle.reading.specs.Steps.{seen};

use crate::fault::{Fault, Unread};
use std::alloc::Global;

// The value of a hexadecimal digit, by its ranges: std's `to_digit` takes a char and answers a wider number.
pub fn digit(code: u8) -> Result<u8, Unread>
    ensures { result ≡ digit_value code }
{
    match code {
        b'0'..=b'9' => Ok(code - b'0'),
        b'a'..=b'f' => Ok(code - b'a' + 10),
        b'A'..=b'F' => Ok(code - b'A' + 10),
        _ => Err(Unread::Hex),
    }
}

// The byte that two digits write, the high one first.
fn byte(high: u8, low: u8) -> Result<u8, Unread>
    ensures { result ≡ byte_of high low }
{
    let high = digit(high)?;
    let low = digit(low)?;
    Ok(high * 16 + low)
}

// The bytes that a word of hexadecimal digits stands for.
pub fn read(heap: Global, word: &[u8]) -> Result<Vec<u8>, Fault>
    ensures { Spared (seen vec_items result) (faulty (bytes_of word.now)) }
{
    let mut out = Vec::new(heap);
    if word == b"-".as_slice() {
        return Ok(out);
    }
    let (pairs, rest) = word.as_chunks::<2>();
    if !rest.is_empty() {
        return Err(Fault::Unread(Unread::Hex));
    }
    // A loop, as short as a chain: an item and the heap fail each in its own way, and a `?` makes one fault of either.
    for [high, low] in pairs {
        out.push(byte(*high, *low)?)?;
    }
    Ok(out)
}
