// Bits that were loaded and are not yet passed on.
ghost use Rattle.std.specs.Prelude.{◌≡◌, ◌+◌, ◌*◌, ◌/◌, ◌%◌, ◌^◌, ◌<◌, ◌≤◌};

// `number` is what the lowest `count` of the bits to come make.
#[derive(Drop)]
pub(crate) struct Pending {
    number: u32,
    pub(crate) count: u32,
    ghost ok: { (count < 20) × (number < 2 ^ count) },
}

impl Pending {
    // No bits.
    pub(crate) fn none() -> Pending
        ensures { (result.number ≡ 0) × (result.count ≡ 0) }
    {
        Pending {
            number: 0,
            count: 0,
        }
    }

    // Puts a number of `width` bits above those that are there.
    pub(crate) fn load(&mut self, number: u32, width: u32)
        requires room { self.old.count + width < 20 }
        requires fits { number < 2 ^ width }
        ensures number { self.new.number ≡ self.old.number + number * 2 ^ self.old.count }
        ensures count { self.new.count ≡ self.old.count + width }
    {
        self.number += number << self.count;
        self.count += width;
    }

    // The lowest `width` bits as a number.
    pub(crate) fn pass_on(&mut self, width: u32) -> u32
        requires { width ≤ self.old.count }
        ensures answers { result ≡ self.old.number % 2 ^ width }
        ensures number { self.new.number ≡ self.old.number / 2 ^ width }
        ensures count { self.new.count + width ≡ self.old.count }
    {
        let number = self.number & ((1 << width) - 1);
        self.number >>= width;
        self.count -= width;
        number
    }
}
