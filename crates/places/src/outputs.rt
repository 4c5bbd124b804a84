// The bytes that leave a station: coefficients of a place, and the published key.
ghost use Rattle.std.specs.Prelude.{◌≡◌, ◌*◌, ◌/◌, ◌%◌, ◌<◌, ◌≤◌, length, take};
ghost use Rattle.packing.specs.Digits.{packed};
ghost use Rattle.places.specs.Replies.{written};
ghost use Rattle.places.specs.Checks.{buffered};
ghost use Rattle.keying.specs.Keys.{h_of};

use crate::filled::Filled;
use keying::key::Key;
use packing::{keys, rows};
use ring::refusal::Refusal;

// Writes the first n coefficients of a record in as many bits each as its width.
pub fn hand_out(filled: &Filled, n: usize, out: &mut [u8]) -> Result<(), Refusal>
    requires { (n ≤ 1024) × (n % 16 ≡ 0) }
    ensures answers { result ≡ buffered (n * filled.now.width.bits / 8) (length out.old) tt }
    ensures writes { out.new ≡ written result (λ _. packed filled.now.width.bits (take n filled.now.coefficients)) out.old }
{
    rows::pack_row(filled.width.bits(), &filled.coefficients[0..n], out)
}

// Writes h in 12 bits each.
pub fn publish(key: &Key, out: &mut [u8]) -> Result<(), Refusal>
    requires { 0 < key.now.degree }
    ensures answers { result ≡ buffered (key.now.degree * 12 / 8) (length out.old) tt }
    ensures writes { out.new ≡ written result (λ _. packed 12 (h_of key.now)) out.old }
{
    let n = key.degree;
    // A copy, since the tests of a row of one's own take less time than those of a row that is lent.
    let h = key.h;
    keys::pack_key(n, &h[0..n], out)
}
