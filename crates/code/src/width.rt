// The width of a coefficient in bits, 8 to 11, and the radius that goes with it.
ghost use Rattle.std.specs.Prelude.{◌≡◌, ◌-◌, ◌≤◌};
ghost use Rattle.std.specs.Option.{option_map};
ghost use Rattle.code.specs.Widths.{radius as radius_of, offered};

#[derive(Clone, Copy, Debug, PartialEq, Eq)]
pub struct Width {
    pub bits: u32,
    ghost ok: { (8 ≤ bits) × (bits ≤ 11) },
}

impl Width {
    // The width of so many bits, if there is one. An Option and no TryFrom, as no refusals are known here.
    pub fn new(bits: u32) -> Option<Width>
        ensures { option_map (λ (w : Width). w.bits) result ≡ offered bits }
    {
        if (8..=11).contains(&bits) {
            Some(Width { bits })
        } else {
            None
        }
    }

    pub fn bits(self) -> u32
        ensures { result ≡ self.bits }
    {
        self.bits
    }

    // Half of the number of values that a coefficient of this width has.
    pub fn radius(self) -> u32
        ensures value { result ≡ radius_of self.bits }
        ensures low { 128 ≤ result }
        ensures high { result ≤ 1024 }
    {
        1 << (self.bits - 1)
    }

    // One bit less; there is none below 8.
    pub fn narrower(self) -> Option<Width>
        ensures { option_map (λ (w : Width). w.bits) result ≡ offered (self.bits - 1) }
    {
        Width::new(self.bits - 1)
    }
}
