// The widths that are packed. Not the widths of `code`, which end at 11 and belong to a crate of its own.
ghost use Rattle.std.specs.Prelude.{◌≡◌, ◌≤◌, Ok, Err, MatchResult};
ghost use Rattle.packing.specs.Answers.{width_answer};

use crate::bits::reading::check_width;
use ring::refusal::Refusal;

// A width of 8 to 12 bits.
#[derive(Clone, Copy)]
pub(crate) struct Narrow {
    pub(crate) bits: u32,
    ghost ok: { (8 ≤ bits) × (bits ≤ 12) },
}

impl TryFrom<u32> for Narrow {
    type Error = Refusal;

    ghost try_from_gives = { λ bits r. MatchResult r (λ w. (w.bits ≡ bits) × (width_answer bits ≡ Ok tt)) (λ e. width_answer bits ≡ Err e) };

    fn try_from(bits: u32) -> Result<Self, Refusal> {
        check_width(bits)?;
        Ok(Narrow { bits })
    }
}
