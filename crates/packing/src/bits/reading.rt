// Taking numbers of 8 to 12 bits from bytes one after another, low bits first.
ghost use Rattle.std.specs.Prelude.{◌≡◌, ◌+◌, ◌*◌, ◌/◌, ◌%◌, ◌^◌, ◌≤◌, length, MatchResult, OnOk};
ghost use Rattle.packing.specs.Digits.{value};
ghost use Rattle.packing.specs.Answers.{width_answer, enough_answer, taken};
ghost use Rattle.packing.specs.Reading.{unread, left};

use super::BitReader;
use crate::narrow::Narrow;
use crate::pending::Pending;
use ring::refusal::Refusal;

// Whether numbers of this width are packed.
pub fn check_width(width: u32) -> Result<(), Refusal>
    ensures { result ≡ width_answer width }
{
    if !(8..=12).contains(&width) {
        return Err(Refusal::Width);
    }
    Ok(())
}

impl<'a> BitReader<'a> {
    // A reader that begins at the lowest bit of the first byte.
    pub fn new(bytes: &'a [u8]) -> BitReader<'a>
        ensures number { unread result ≡ value 256 bytes.now }
        ensures bits { left result ≡ 8 * length bytes.now }
    {
        BitReader {
            bytes,
            pending: Pending::none(),
        }
    }

    // The next `width` bits as a number; a refusal leaves the bits to come as they were.
    pub fn take(&mut self, width: u32) -> Result<u16, Refusal>
        ensures answers { result ≡ taken width (left self.old) (unread self.old) }
        ensures moves { MatchResult result (λ _. (unread self.new ≡ unread self.old / 2 ^ width) × (left self.new + width ≡ left self.old)) (λ _. (unread self.new ≡ unread self.old) × (left self.new ≡ left self.old)) }
    {
        let narrow = Narrow::try_from(width)?;
        self.load(narrow)?;
        Ok(self.pass_on(narrow))
    }

    // Makes at least `width` bits pending.
    fn load(&mut self, width: Narrow) -> Result<(), Refusal>
        ensures answers { result ≡ enough_answer width.bits (left self.old) }
        ensures enough { OnOk result (width.bits ≤ self.new.pending.count) }
        ensures number { unread self.new ≡ unread self.old }
        ensures bits { left self.new ≡ left self.old }
    {
        while self.pending.count < width.bits {
            let Some((byte, rest)) = self.bytes.split_first() else {
                return Err(Refusal::Length);
            };
            self.pending.load(*byte as u32, 8);
            self.bytes = rest;
        }
        Ok(())
    }

    // The lowest `width` of the pending bits as a number.
    fn pass_on(&mut self, width: Narrow) -> u16
        requires { width.bits ≤ self.old.pending.count }
        ensures answers { result ≡ unread self.old % 2 ^ width.bits }
        ensures number { unread self.new ≡ unread self.old / 2 ^ width.bits }
        ensures bits { left self.new + width.bits ≡ left self.old }
    {
        self.pending.pass_on(width.bits) as u16
    }
}
