// What a filled place holds, alone in its file so that the definitions can name it.
ghost use Rattle.std.specs.Prelude.{◌≡◌, ◌^◌, ◌<◌, true};
ghost use Rattle.ring.specs.Engines.{all_below};
ghost use Rattle.code.specs.Widths.{radius};

use code::width::Width;

// A wrapped message: coefficients below 2^width, of which the first n count,
// and the allowance, a bound on the length of its noise in each octet. An array, since a station asks for no memory.
#[derive(Clone, Copy)]
pub struct Filled {
    pub width: Width,
    pub coefficients: [u16; 1024],
    pub allowance: u16,
    ghost small: { all_below (2 ^ width.bits) coefficients ≡ true },
    ghost quiet: { allowance < radius width.bits },
}
