// Published keys: rows of residues modulo 3457 in 12 bits each.
ghost use Rattle.std.specs.Prelude.{◌≡◌, ◌*◌, true, length, Ok};
ghost use Rattle.ring.specs.Engines.{all_below};
ghost use Rattle.packing.specs.Digits.{packed, unpacked};
ghost use Rattle.packing.specs.Answers.{shape_answer, entry_answer, entries_answer, pack_key_answer, unpack_key_answer, written};
ghost use Rattle.packing.specs.Laws.{KeysReturn};

use crate::bits::BitReader;
use crate::rows;
use ring::engine::below;
use ring::refusal::Refusal;

// The bits of one entry of a key.
const WIDTH: u32 = 12;

// Each entry of a key is below this.
const MODULUS: u16 = 3457;

// A key that was packed is accepted by unpacking and comes back, and the same the other way round.
pub fn keys_return()
    ensures { KeysReturn }
{}

// Packs the n entries of a key.
pub fn pack_key(n: usize, row: &[u16], out: &mut [u8]) -> Result<(), Refusal>
    ensures answers { result ≡ pack_key_answer n row.now (length out.old) }
    ensures writes { out.new ≡ written result (packed 12 row.now) out.old }
{
    check_shape(n, row.len(), out.len())?;
    check_residues(row)?;
    write_key(row, out)
}

// Unpacks the n entries of a key.
pub fn unpack_key(n: usize, bytes: &[u8], out: &mut [u16]) -> Result<(), Refusal>
    ensures answers { result ≡ unpack_key_answer n bytes.now (length out.old) }
    ensures writes { out.new ≡ written result (unpacked 12 n bytes.now) out.old }
{
    check_shape(n, out.len(), bytes.len())?;
    check_entries(n, bytes)?;
    rows::unpack_row(WIDTH, bytes, out)
}

// Whether a key may have n entries, and whether a row and bytes have the lengths for it.
fn check_shape(n: usize, numbers: usize, bytes: usize) -> Result<(), Refusal>
    ensures { result ≡ shape_answer n numbers bytes }
{
    if n % 16 != 0 || !(16..=1024).contains(&n) {
        return Err(Refusal::Mismatch);
    }
    if numbers != n || bytes != n * 12 / 8 {
        return Err(Refusal::Length);
    }
    Ok(())
}

// Whether a number may be an entry.
fn check_residue(entry: u16) -> Result<(), Refusal>
    ensures { result ≡ entry_answer entry }
{
    if entry >= MODULUS {
        return Err(Refusal::Residue);
    }
    Ok(())
}

// Whether each number of a row may be an entry.
fn check_residues(row: &[u16]) -> Result<(), Refusal>
    ensures { result ≡ entries_answer row.now }
{
    if !below(MODULUS, row) {
        return Err(Refusal::Residue);
    }
    Ok(())
}

// Packs entries that were checked, so that each fits in its bits; what packing a row answers is passed on.
fn write_key(row: &[u16], out: &mut [u8]) -> Result<(), Refusal>
    requires residues { all_below 3457 row.now ≡ true }
    requires fills { length out.old * 8 ≡ length row.now * 12 }
    ensures answers { result ≡ Ok tt }
    ensures writes { out.new ≡ packed 12 row.now }
{
    rows::pack_row(WIDTH, row, out)
}

// Whether each of the n numbers that the bytes hold may be an entry; looks before anything is written.
fn check_entries(n: usize, bytes: &[u8]) -> Result<(), Refusal>
    requires { length bytes.now * 8 ≡ n * 12 }
    ensures { result ≡ entries_answer (unpacked 12 n bytes.now) }
{
    let mut reader = BitReader::new(bytes);
    for _ in 0..n {
        let entry = reader.take(WIDTH)?;
        check_residue(entry)?;
    }
    Ok(())
}
