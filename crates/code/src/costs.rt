// What one place of an octet, or a pair of places, adds to the squared distance from a word, for each bit that the word may have there.
ghost use Rattle.std.specs.Prelude.{◌≡◌, ◌+◌, ◌*◌, ◌<◌, ◌≤◌, pos, if◌then◌else◌, nat_eq, slice_index_or};
ghost use Rattle.code.specs.Widths.{radius};
ghost use Rattle.code.specs.Distances.{cost};

use crate::fold::fold;
use crate::width::Width;

// The cost of the bit 0 and that of the bit 1.
#[derive(Clone, Copy)]
pub struct Costs {
    pub zero: u32,
    pub one: u32,
    ghost small: { (zero ≤ 2097152) × (one ≤ 2097152) },
}

impl Costs {
    // The cost of a bit of a word.
    pub(crate) fn pick(self, bit: u8) -> u32
        ensures value { result ≡ (if nat_eq bit 0 then self.zero else self.one) }
        ensures small { result ≤ 2097152 }
    {
        if bit == 0 { self.zero } else { self.one }
    }
}

fn square(n: u32) -> u32
    requires { n ≤ 1024 }
    ensures value { result ≡ n * n }
    ensures small { result ≤ 1048576 }
{
    n * n
}

// The magnitudes of the folds of x and of x - R add up to R.
pub(crate) fn place_costs(x: i32, width: Width) -> Costs
    ensures zero { result.zero ≡ cost (radius width.bits) x 0 }
    ensures one { result.one ≡ cost (radius width.bits) x 1 }
    ensures small { (result.zero ≤ 1048576) × (result.one ≤ 1048576) }
{
    let r = width.radius();
    let n = fold(x, width).unsigned_abs();
    Costs {
        zero: square(n),
        one: square(r - n),
    }
}

// The places first and first + 1 of an octet, where a word has the same bit at both.
pub(crate) fn pair_costs(octet: [i32; 8], first: usize, width: Width) -> Costs
    requires { first < 7 }
    ensures zero { result.zero ≡ cost (radius width.bits) (slice_index_or octet first (pos 0)) 0 + cost (radius width.bits) (slice_index_or octet (first + 1) (pos 0)) 0 }
    ensures one { result.one ≡ cost (radius width.bits) (slice_index_or octet first (pos 0)) 1 + cost (radius width.bits) (slice_index_or octet (first + 1) (pos 0)) 1 }
{
    let x = place_costs(octet[first], width);
    let y = place_costs(octet[first + 1], width);
    Costs {
        zero: x.zero + y.zero,
        one: x.one + y.one,
    }
}
