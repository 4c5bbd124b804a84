// The product that a wrapping is opened and measured by: coefficients times f = 2 f' + 1, modulo 2048.
ghost use Rattle.std.specs.Prelude.{◌≡◌, ◌/◌, ◌<◌, true, length, take};
ghost use Rattle.code.specs.Rows.{decoded, farthest};
ghost use Rattle.ring.specs.Engines.{all_below};
ghost use Rattle.wrapping.specs.Secrets.{reduced_row};
ghost use Rattle.wrapping.specs.Wraps.{measured as measured_of};
ghost use Rattle.products.specs.Asking.{Fits, Same};

use crate::multiply::multiply;
use code::octets;
use code::width::Width;
use ring::engine::RingEngine;
use wrapping::secret::reduce_secret;

// Coefficients times f = 2 f' + 1, modulo 2048. Not `small::times` at another modulus: there the row is reduced as it is.
fn measured<Q: RingEngine>(
    engine: &mut Q,
    n: usize,
    c: &[u16; 1024],
    f: &[i16; 1024],
) -> [u16; 1024]
    requires engine { Fits Q.RingEngine engine.old n 2048 }
    requires row { all_below 2048 (take n c.now) ≡ true }
    ensures same { Same Q.RingEngine engine.old engine.new }
    ensures value { take n result ≡ reduced_row 2048 (measured_of n (take n f.now) (take n c.now)) }
{
    let mut secret = [0u16; 1024];
    reduce_secret::<2047>(f, &mut secret);
    let mut out = [0u16; 1024];
    multiply(engine, n, c, &secret, &mut out);
    out
}

// The largest squared distance of an octet of coefficients times f from its word of a message.
pub fn distance<Q: RingEngine>(
    engine: &mut Q,
    n: usize,
    c: &[u16; 1024],
    f: &[i16; 1024],
    message: &[u8],
    width: Width,
) -> u32
    requires engine { Fits Q.RingEngine engine.old n 2048 }
    requires row { all_below 2048 (take n c.now) ≡ true }
    ensures same { Same Q.RingEngine engine.old engine.new }
    ensures value { result ≡ farthest width.bits (measured_of n (take n f.now) (take n c.now)) message.now }
{
    let row = measured(engine, n, c, f);
    octets::farthest(&row[0..n], message, width)
}

// Writes the message of the nearest words of coefficients times f.
pub fn decode<Q: RingEngine>(
    engine: &mut Q,
    n: usize,
    c: &[u16; 1024],
    f: &[i16; 1024],
    width: Width,
    out: &mut [u8],
)
    requires engine { Fits Q.RingEngine engine.old n 2048 }
    requires row { all_below 2048 (take n c.now) ≡ true }
    ensures same { Same Q.RingEngine engine.old engine.new }
    ensures writes { out.new ≡ decoded width.bits (measured_of n (take n f.now) (take n c.now)) (length out.old) }
{
    let row = measured(engine, n, c, f);
    octets::decode(&row[0..n], width, out);
}

// The message of the nearest words of coefficients times f, in the first bytes of an array.
pub fn message<Q: RingEngine>(
    engine: &mut Q,
    n: usize,
    c: &[u16; 1024],
    f: &[i16; 1024],
    width: Width,
) -> [u8; 64]
    requires engine { Fits Q.RingEngine engine.old n 2048 }
    requires row { all_below 2048 (take n c.now) ≡ true }
    ensures same { Same Q.RingEngine engine.old engine.new }
    ensures value { take (n / 16) result ≡ decoded width.bits (measured_of n (take n f.now) (take n c.now)) (n / 16) }
{
    let mut out = [0u8; 64];
    decode(engine, n, c, f, width, &mut out[0..n / 16]);
    out
}
