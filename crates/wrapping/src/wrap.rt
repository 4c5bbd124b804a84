// Wrapping: a row is rounded to the width, and the words of the message are put on its top.
ghost use Rattle.std.specs.Prelude.{◌≡◌, length};
ghost use Rattle.wrapping.specs.Buffers.{over};
ghost use Rattle.wrapping.specs.Wraps.{embedded as embedded_of, embedded_row, position as position_of};

use code::message::number_at;
use code::width::Width;
use code::words::word;

// Place i of the words of a message in a row.
fn position(message: &[u8], i: usize) -> u8
    ensures { result ≡ position_of message.now i }
{
    let word = word(number_at(message, i / 8));
    word[i % 8]
}

// The whole number nearest to 2^w s / 3457, with the bit times the radius added, modulo 2^w.
fn embedded(s: u16, bit: u8, width: Width) -> u16
    ensures { result ≡ embedded_of width.bits s bit }
{
    let modulus = 2 * width.radius();
    let rounded = (2 * (modulus * s as u32) + 3457) / 6914;
    let raised = rounded + width.radius() * bit as u32;
    (raised % modulus) as u16
}

// Writes the coefficients that wrap a message, at the places that both rows have.
pub fn embed(sigma: &[u16], message: &[u8], width: Width, out: &mut [u16])
    ensures { out.new ≡ over (embedded_row (length sigma.now) width.bits sigma.now message.now) out.old }
{
    // A proof learns nothing of what a `zip` over `iter_mut` writes, so each place is written by its index.
    for (i, s) in sigma.iter().enumerate().take(out.len()) {
        out[i] = embedded(*s, position(message, i), width);
    }
}
