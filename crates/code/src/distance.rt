// The squared distance of an octet from a word.
ghost use Rattle.std.specs.Prelude.{◌≡◌};
ghost use Rattle.code.specs.Distances.{distance as distance_of};

use crate::costs::place_costs;
use crate::nibble::Nibble;
use crate::width::Width;
use crate::words::word;

// The sum of the squares of the folds of octet[i] - R * word[i], where R is the radius.
pub fn distance(octet: [i32; 8], number: Nibble, width: Width) -> u32
    ensures { result ≡ distance_of width.bits octet number.value }
{
    let bits = word(number);
    let mut sum = 0;
    for (x, bit) in octet.iter().zip(&bits) {
        sum += place_costs(*x, width).pick(*bit);
    }
    sum
}
