// Rows of numbers of 8 to 12 bits each as bytes and back, low bits first.
ghost use Rattle.std.specs.Prelude.{◌≡◌, ◌*◌, ◌^◌, true, length, Ok, Err, MatchResult};
ghost use Rattle.ring.specs.Engines.{all_below};
ghost use Rattle.packing.specs.Digits.{packed, unpacked};
ghost use Rattle.packing.specs.Answers.{lengths_answer, pack_row_answer, written};
ghost use Rattle.packing.specs.Laws.{RoundTrips};

use crate::bits::BitReader;
use crate::narrow::Narrow;
use crate::pending::Pending;
use ring::engine::below;
use ring::refusal::Refusal;

// Packing and unpacking undo each other, at every width.
pub fn round_trips()
    ensures { RoundTrips }
{}

// Packs a row into exactly as many bytes as it has bits for.
pub fn pack_row(width: u32, row: &[u16], out: &mut [u8]) -> Result<(), Refusal>
    ensures answers { result ≡ pack_row_answer width row.now (length out.old) }
    ensures writes { out.new ≡ written result (packed width row.now) out.old }
{
    let narrow = check_lengths(width, row.len(), out.len())?;
    if !below(1 << width, row) {
        return Err(Refusal::Residue);
    }
    write_row(narrow, row, out);
    Ok(())
}

// Unpacks exactly as many numbers as the bytes have bits for.
pub fn unpack_row(width: u32, bytes: &[u8], out: &mut [u16]) -> Result<(), Refusal>
    ensures answers { result ≡ lengths_answer width (length out.old) (length bytes.now) }
    ensures writes { out.new ≡ written result (unpacked width (length out.old) bytes.now) out.old }
{
    let narrow = check_lengths(width, out.len(), bytes.len())?;
    read_row(narrow, bytes, out)
}

// The width, if numbers of it fill bytes to the last bit; the products may pass 64 bits.
fn check_lengths(width: u32, numbers: usize, bytes: usize) -> Result<Narrow, Refusal>
    ensures { MatchResult result (λ w. (w.bits ≡ width) × (lengths_answer width numbers bytes ≡ Ok tt)) (λ e. lengths_answer width numbers bytes ≡ Err e) }
{
    let narrow = Narrow::try_from(width)?;
    if bytes as u128 * 8 != numbers as u128 * width as u128 {
        return Err(Refusal::Length);
    }
    Ok(narrow)
}

// Writes the bytes of a row whose numbers and length fit.
fn write_row(width: Narrow, row: &[u16], out: &mut [u8])
    requires fits { all_below (2 ^ width.bits) row.now ≡ true }
    requires fills { length out.old * 8 ≡ length row.now * width.bits }
    ensures { out.new ≡ packed width.bits row.now }
{
    let mut numbers = row.iter();
    let mut pending = Pending::none();
    for place in out.iter_mut() {
        // one number fills up a byte, as it has 8 bits or more; there is one, as the row has bits for every place
        if pending.count < 8
            && let Some(x) = numbers.next()
        {
            pending.load(*x as u32, width.bits);
        }
        *place = pending.pass_on(8) as u8;
    }
}

// Reads as many numbers as there are places, which the bytes have exactly the bits for; what the reader answers is passed on.
fn read_row(width: Narrow, bytes: &[u8], out: &mut [u16]) -> Result<(), Refusal>
    requires { length bytes.now * 8 ≡ length out.old * width.bits }
    ensures answers { result ≡ Ok tt }
    ensures writes { out.new ≡ unpacked width.bits (length out.old) bytes.now }
{
    let mut reader = BitReader::new(bytes);
    for place in out.iter_mut() {
        *place = reader.take(width.bits)?;
    }
    Ok(())
}
