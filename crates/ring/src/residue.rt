// The type of residues, alone in its file so that the definitions can name it.
ghost use Rattle.std.specs.Prelude.{◌≤◌};

// A number up to LAST, so a residue modulo LAST + 1: no value of the type breaks the bound.
#[derive(Clone, Copy, PartialEq, Eq, Debug)]
pub struct Residue<const LAST: u16> {
    pub value: u16,
    ghost ok: { value ≤ LAST },
}
