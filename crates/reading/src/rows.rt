// A row as a script writes it: `[LENGTH/]TERM,TERM..`, where a term is a value for the next place,
// `PLACE:VALUE`, or `*:VALUE` for every place, and `-` is all zero.
ghost use Rattle.std.specs.Prelude.{◌≡◌, length, replicate, if◌then◌else◌, Ok, Err, vec_items, nat_lt, slice_set};
ghost use Rattle.reading.specs.Coefficients.{natural, whole};
ghost use Rattle.reading.specs.Cuts.{cuts, parts_of};
ghost use Rattle.reading.specs.Memory.{faulty, Spared};
ghost use Rattle.reading.specs.Rows.{put_at, term_of, terms_of, head_of, row_of, each, row_by, comma};
ghost use Rattle.reading.specs.Steps.{seen};

use crate::coefficients::Coefficient;
use crate::fault::{Fault, Unread};
use crate::numbers;
use crate::pieces::{Pieces, Separator, split_once};
use std::alloc::Global;

// The longest row that a script may write.
pub const MAX_LENGTH: usize = 4096;

// Writes a value at a place of the row.
pub fn put(row: &mut [i32], place: usize, value: i32) -> Result<(), Unread>
    ensures answers { result ≡ (if nat_lt place (length row.old) then Ok tt else Err Unread.Row) }
    ensures writes { row.new ≡ slice_set row.old place value }
    ensures step { seen (λ _. row.new) result ≡ put_at place value row.old }
{
    // By index, since a proof knows nothing of what is written through `get_mut`.
    if place >= row.len() {
        return Err(Unread::Row);
    }
    row[place] = value;
    Ok(())
}

// Writes a value at every place of the row.
pub fn fill(row: &mut [i32], value: i32)
    ensures { row.new ≡ replicate (length row.old) value }
{
    row.fill(value);
}

// Writes one term, and gives the place that a term without one would take after it.
fn term(row: &mut [i32], text: &[u8], next: usize) -> Result<usize, Unread>
    ensures { seen (λ after. (after, row.new)) result ≡ term_of next row.old text.now }
{
    let Some((place, word)) = split_once(text, Separator::Byte(b':')) else {
        put(row, next, numbers::signed(text)?)?;
        return Ok(next + 1);
    };
    let value = numbers::signed(word)?;
    if place == b"*".as_slice() {
        fill(row, value);
    } else {
        put(row, numbers::number(place)?, value)?;
    }
    Ok(next)
}

// Writes terms, the first of which would take the first place.
fn write(row: &mut [i32], terms: &[u8]) -> Result<(), Unread>
    ensures { seen (λ _. row.new) result ≡ terms_of 0 row.old (parts_of (cuts comma) terms.now) }
{
    let mut next = 0;
    for text in Pieces::new(terms, Separator::Byte(b',')) {
        next = term(row, text, next)?;
    }
    Ok(())
}

// The length and the terms of a row: it has `degree` places where it is written without a length.
fn head(text: &[u8], degree: usize) -> Result<(usize, &[u8]), Unread>
    ensures { seen (λ parts. (parts.0, parts.1.now)) result ≡ head_of degree text.now }
{
    match split_once(text, Separator::Byte(b'/')) {
        Some((length, terms)) => Ok((numbers::number(length)?, terms)),
        None => Ok((degree, text)),
    }
}

// A row of numbers.
fn numbers_of(heap: Global, text: &[u8], degree: usize) -> Result<Vec<i32>, Fault>
    ensures { Spared (seen vec_items result) (faulty (row_of degree text.now)) }
{
    let (length, terms) = head(text, degree)?;
    if length > MAX_LENGTH {
        return Err(Fault::Unread(Unread::Row));
    }
    let mut row = vec![in heap; 0i32; length]?;
    if terms == b"-".as_slice() {
        return Ok(row);
    }
    write(row.as_mut_slice(), terms)?;
    Ok(row)
}

// Numbers as coefficients of one kind.
fn narrowed<C: Coefficient + Drop>(heap: Global, row: &[i32]) -> Result<Vec<C>, Fault>
    ensures { Spared (seen vec_items result) (faulty (each C.reads row.now)) }
{
    let mut out = Vec::new(heap);
    // A loop, as short as a chain: an item and the heap fail each in its own way, and a `?` makes one fault of either.
    for value in row {
        out.push(C::of(*value)?)?;
    }
    Ok(out)
}

// A row of coefficients of one kind.
pub fn read<C: Coefficient + Drop>(
    heap: Global,
    text: &[u8],
    degree: usize,
) -> Result<Vec<C>, Fault>
    ensures { Spared (seen vec_items result) (faulty (row_by C.reads degree text.now)) }
{
    let row = numbers_of(heap, text, degree)?;
    narrowed(heap, row.as_slice())
}

// A row of coefficients without sign.
pub fn unsigned(heap: Global, text: &[u8], degree: usize) -> Result<Vec<u16>, Fault>
    ensures { Spared (seen vec_items result) (faulty (row_by natural degree text.now)) }
{
    read(heap, text, degree)
}

// A row of coefficients with sign.
pub fn signed(heap: Global, text: &[u8], degree: usize) -> Result<Vec<i16>, Fault>
    ensures { Spared (seen vec_items result) (faulty (row_by whole degree text.now)) }
{
    read(heap, text, degree)
}
