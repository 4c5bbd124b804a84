// The number of a word: four message bits, as a number below 16.
ghost use Rattle.std.specs.Prelude.{◌≡◌, ◌<◌};
ghost use Rattle.std.specs.Option.{option_map};
ghost use Rattle.code.specs.Widths.{four_bits};

#[derive(Clone, Copy, Debug, PartialEq, Eq)]
pub struct Nibble {
    pub value: u8,
    ghost small: { value < 16 },
}

impl Nibble {
    // The number, if it has four bits. An Option and no TryFrom, which would need an error type that says no more.
    pub fn new(value: u8) -> Option<Nibble>
        ensures { option_map (λ (k : Nibble). k.value) result ≡ four_bits value }
    {
        if value < 16 {
            Some(Nibble { value })
        } else {
            None
        }
    }

    pub fn value(self) -> u8
        ensures { result ≡ self.value }
    {
        self.value
    }
}
