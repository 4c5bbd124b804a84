// The octets of a row of coefficients: what they decode to, and how far they are from a message.
ghost use Rattle.std.specs.Prelude.{◌≡◌, ◌+◌, ◌*◌, ◌<◌, length, pos, slice_index_or};
ghost use Rattle.code.specs.Rows.{whole, octet as octet_of, decoded, farthest as farthest_of};
ghost use Rattle.code.specs.Distances.{nearest as nearest_of};

use crate::distance::distance;
use crate::message::number_at;
use crate::nearest::nearest;
use crate::nibble::Nibble;
use crate::width::Width;

// A place of an octet, 0 past the end of the row. A place that would not fit its type is past the end.
fn place_at(row: &[u16], octet: usize, position: usize) -> i32
    requires { position < 8 }
    ensures { result ≡ slice_index_or (whole row.now) (8 * octet + position) (pos 0) }
{
    let place = octet.saturating_mul(8).saturating_add(position);
    row.get(place).copied().unwrap_or(0) as i32
}

// Places 8 i to 8 i + 7 of a row, where i is the octet.
pub fn octet_at(row: &[u16], octet: usize) -> [i32; 8]
    ensures { result ≡ octet_of (whole row.now) octet }
{
    std::array::from_fn(|j| place_at(row, octet, j))
}

// The number of the word that is nearest to an octet.
fn read(row: &[u16], octet: usize, width: Width) -> Nibble
    ensures { result.value ≡ nearest_of width.bits (octet_of (whole row.now) octet) }
{
    let mut places = octet_at(row, octet);
    nearest(&mut places, width)
}

// Writes the bytes that a row decodes to, as many as the buffer has.
pub fn decode(row: &[u16], width: Width, out: &mut [u8])
    ensures { out.new ≡ decoded width.bits (whole row.now) (length out.old) }
{
    for (j, byte) in out.iter_mut().enumerate() {
        let first = j.saturating_mul(2);
        let low = read(row, first, width);
        let high = read(row, first.saturating_add(1), width);
        *byte = low.value() + 16 * high.value();
    }
}

// The largest squared distance of an octet of the row from its word of the message.
pub fn farthest(row: &[u16], message: &[u8], width: Width) -> u32
    ensures { result ≡ farthest_of width.bits (whole row.now) message.now }
{
    (0..row.len() / 8)
        .map(|i| distance(octet_at(row, i), number_at(message, i), width))
        .max()
        .unwrap_or(0)
}
