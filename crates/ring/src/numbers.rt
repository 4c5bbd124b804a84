// Rows of numbers as rows of residues and back, between rows of one length.
ghost use Rattle.std.specs.Prelude.{◌≡◌, length};
ghost use Rattle.ring.specs.Engines.{numbers as numbers_of, residues as residues_of};

use crate::residue::Residue;

// Reads numbers as residues.
pub fn load<const LAST: u16>(source: &[u16], target: &mut [Residue<LAST>])
    requires { length source.now ≡ length target.old }
    ensures { target.new ≡ residues_of LAST source.now }
{
    // A proof learns nothing of what a `zip` over `iter_mut` writes, so each place is written by its index, here and below.
    for (i, number) in source.iter().enumerate() {
        target[i] = Residue::of(*number as u32);
    }
}

// Writes residues as numbers.
pub fn store<const LAST: u16>(source: &[Residue<LAST>], target: &mut [u16])
    requires { length source.now ≡ length target.old }
    ensures { target.new ≡ numbers_of source.now }
{
    for (i, residue) in source.iter().enumerate() {
        target[i] = residue.value;
    }
}
