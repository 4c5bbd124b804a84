// The two kinds of coefficients that a row may have: without sign, and with one.
ghost use Rattle.std.specs.Prelude.{◌≡◌, ℤ, Result as Outcome};
ghost use Rattle.reading.specs.declared.fault.Unread.{Unread as What};
ghost use Rattle.reading.specs.Coefficients.{natural, whole};

use crate::fault::Unread;

// A kind of coefficient says which numbers it has.
pub trait Coefficient {
    ghost reads: { ℤ → Outcome Self What };

    fn of(value: i32) -> Result<Self, Unread>
        ensures { result ≡ reads value };
}

impl Coefficient for u16 {
    ghost reads = { natural };

    fn of(value: i32) -> Result<u16, Unread> {
        u16::try_from(value).map_err(|_| Unread::Number)
    }
}

impl Coefficient for i16 {
    ghost reads = { whole };

    fn of(value: i32) -> Result<i16, Unread> {
        i16::try_from(value).map_err(|_| Unread::Number)
    }
}
