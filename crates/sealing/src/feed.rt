// Sealing under a published key and unsealing with f', away from any station.
ghost use Rattle.std.specs.Prelude.{◌≡◌, ◌*◌, ◌≤◌, true, length, take, Ok};
ghost use Rattle.packing.specs.Answers.{unpack_key_answer, written};
ghost use Rattle.packing.specs.Digits.{packed, unpacked};
ghost use Rattle.ring.specs.Engines.{all_below};
ghost use Rattle.wrapping.specs.Wraps.{wrap as wrap_of};
ghost use Rattle.sealing.specs.Sealing.{seal_answer, sealed, suited as suited_of, unseal_answer, unsealed as unsealed_of, ComesBack};
ghost use Rattle.products.specs.Widths.{bits_of};
ghost use Rattle.products.specs.Asking.{Fits, Same};

use code::width::Width;
use packing::{keys, rows};
use products::padding::padded;
use products::{noise, secret};
use ring::engine::{MAX_DEGREE, RingEngine};
use ring::refusal::Refusal;
use wrapping::secret::is_small;
use wrapping::wrap;

// Unsealing gives back what was sealed, if the exact error is short enough.
pub fn sealing_returns()
    ensures { ComesBack }
{}

// Writes the bytes of a message wrapped under a published key, or refuses and leaves out as it was: 1, 11, 2, 13, 3.
pub fn seal<P: RingEngine>(
    engine: &mut P,
    width: u32,
    key: &[u8],
    noise: &[i16],
    message: &[u8],
    out: &mut [u8],
) -> Result<(), Refusal>
    ensures same { Same P.RingEngine engine.old engine.new }
    ensures answers { result ≡ seal_answer (P.degree engine.old) (P.modulus engine.old) width key.now noise.now message.now (length out.old) }
    ensures writes { out.new ≡ written result (sealed (P.degree engine.old) width key.now noise.now message.now) out.old }
{
    let n = engine.degree();
    let width = suited(9, 3457, n, engine.modulus(), width)?;
    if key.len() != n * 12 / 8
        || noise.len() != n
        || message.len() != n / 16
        || out.len() != n * width.bits() as usize / 8
    {
        return Err(Refusal::Length);
    }
    let mut h = [0; 1024];
    read_key(n, key, &mut h)?;
    if !is_small(noise) {
        return Err(Refusal::Noise);
    }
    wrap_into(engine, n, width, &h, noise, message, out)
}

// Writes the message of the nearest words of c times f, or refuses and leaves out as it was: 1, 11, 2, 3.
pub fn unseal<Q: RingEngine>(
    engine: &mut Q,
    width: u32,
    f: &[i16],
    bytes: &[u8],
    out: &mut [u8],
) -> Result<(), Refusal>
    ensures same { Same Q.RingEngine engine.old engine.new }
    ensures answers { result ≡ unseal_answer (Q.degree engine.old) (Q.modulus engine.old) width f.now bytes.now (length out.old) }
    ensures writes { out.new ≡ written result (unsealed_of (Q.degree engine.old) width f.now bytes.now) out.old }
{
    let n = engine.degree();
    let width = suited(8, 2048, n, engine.modulus(), width)?;
    if f.len() != n || bytes.len() != n * width.bits() as usize / 8 || out.len() != n / 16 {
        return Err(Refusal::Length);
    }
    if !is_small(f) {
        return Err(Refusal::Noise);
    }
    let mut coefficients = [0; 1024];
    read_row(n, width, bytes, &mut coefficients)?;
    secret::decode(engine, n, &coefficients, &padded(f), width, out);
    Ok(())
}

// The width that an engine of degree n and modulus m goes on with: 1, 11. Its second half is that of `places`, which does not stand on this crate.
fn suited(lowest: u32, wanted: u16, n: usize, m: u16, width: u32) -> Result<Width, Refusal>
    requires { 8 ≤ lowest }
    ensures { bits_of result ≡ suited_of lowest wanted n m width }
{
    if n > MAX_DEGREE || m != wanted {
        return Err(Refusal::Mismatch);
    }
    if width < lowest {
        return Err(Refusal::Width);
    }
    Width::new(width).ok_or(Refusal::Width)
}

// Reads the row of a published key; what unpacking refuses is refused.
fn read_key(n: usize, key: &[u8], h: &mut [u16; 1024]) -> Result<(), Refusal>
    requires { n ≤ 1024 }
    ensures answers { result ≡ unpack_key_answer n key.now n }
    ensures writes { take n h.new ≡ written result (unpacked 12 n key.now) (take n h.old) }
{
    keys::unpack_key(n, key, &mut h[0..n])
}

// Reads the row that sealed bytes hold; what packing answers is passed on.
fn read_row(n: usize, width: Width, bytes: &[u8], c: &mut [u16; 1024]) -> Result<(), Refusal>
    requires { (n ≤ 1024) × (length bytes.now * 8 ≡ n * width.bits) }
    ensures obeyed { result ≡ Ok tt }
    ensures writes { take n c.new ≡ unpacked width.bits n bytes.now }
{
    rows::unpack_row(width.bits(), bytes, &mut c[0..n])
}

// Wraps a message under the row h and writes the bytes; all was checked, and what packing answers is passed on.
fn wrap_into<P: RingEngine>(
    engine: &mut P,
    n: usize,
    width: Width,
    h: &[u16; 1024],
    noise: &[i16],
    message: &[u8],
    out: &mut [u8],
) -> Result<(), Refusal>
    requires engine { Fits P.RingEngine engine.old n 3457 }
    requires rows { (all_below 3457 (take n h.now) ≡ true) × (length noise.now ≡ n) × (length out.old * 8 ≡ n * width.bits) }
    ensures same { Same P.RingEngine engine.old engine.new }
    ensures obeyed { result ≡ Ok tt }
    ensures writes { out.new ≡ packed width.bits (wrap_of n width.bits (take n h.now) noise.now message.now) }
{
    let sigma = noise::sigma(engine, n, h, noise);
    let mut c = [0; 1024];
    wrap::embed(&sigma, message, width, &mut c);
    rows::pack_row(width.bits(), &c[0..n], out)
}
