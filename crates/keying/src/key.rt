// The record of a key, alone in its file so that the definitions can name it.
ghost use Rattle.std.specs.Prelude.{◌≡◌, true, pos};
ghost use Rattle.ring.specs.Engines.{all_below};
ghost use Rattle.wrapping.specs.Secrets.{all_small};
ghost use Rattle.keying.specs.KeyLaw.{Cut, KeyDegree, Ties};

// A key of some degree: f' and g as handed in, and h with h·f = g modulo 3457, where f = 2 f' + 1.
// Places past the degree are zero, and the unkeyed key has degree 0. Arrays of the largest degree, since a station asks for no memory.
#[derive(Clone, Copy)]
pub struct Key {
    pub degree: usize,
    pub f: [i16; 1024],
    pub g: [i16; 1024],
    pub h: [u16; 1024],
    ghost size: { KeyDegree degree },
    ghost f_cut: { Cut (pos 0) degree f },
    ghost g_cut: { Cut (pos 0) degree g },
    ghost h_cut: { Cut 0 degree h },
    ghost f_small: { all_small f ≡ true },
    ghost g_small: { all_small g ≡ true },
    ghost h_below: { all_below 3457 h ≡ true },
    ghost tied: { Ties degree f g h },
}
