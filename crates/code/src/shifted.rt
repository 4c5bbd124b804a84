// An octet that is shifted at its odd positions for a while.
ghost use Rattle.std.specs.Prelude.{◌≡◌, ℕ, ◌<◌, pos, FitsSigned, slice_index_or};
ghost use Rattle.std.specs.Int.{w32};
ghost use Rattle.code.specs.Tries.{raised, lowered};

// Adds to the numbers at the odd positions.
// Sums wrap: 2^32 is a multiple of every 2^w, so folds do not change and the octet is put back exactly.
fn raise(octet: &mut [i32; 8], by: i32)
    ensures value { octet.new ≡ raised by octet.old }
    ensures fits { (i : ℕ) → i < 8 → FitsSigned w32 (slice_index_or octet.old i (pos 0)) }
{
    // place by place: in a loop the proof lacks that the places it leaves alone fit 32 bits
    let [a, b, c, d, e, f, g, h] = *octet;
    *octet = [
        a,
        b.wrapping_add(by),
        c,
        d.wrapping_add(by),
        e,
        f.wrapping_add(by),
        g,
        h.wrapping_add(by),
    ];
}

// Holds a shifted octet, and puts it back at its end.
pub struct Shifted<'a> {
    pub octet: &'a mut [i32; 8],
    by: i32,
}

impl<'a> Shifted<'a> {
    pub fn new(octet: &'a mut [i32; 8], by: i32) -> Shifted<'a>
        ensures by { result.by ≡ by }
        ensures held { result.octet.now ≡ raised by octet.old }
        ensures fits { (i : ℕ) → i < 8 → FitsSigned w32 (slice_index_or octet.old i (pos 0)) }
        ensures lent { result.octet.ghost_name ≡ octet.entry.ghost_name }
    {
        raise(octet, by);
        Shifted { octet, by }
    }
}

impl Drop for Shifted<'_> {
    fn drop(self)
        ensures { self.exit.0.now ≡ lowered self.entry.by self.entry.octet.now }
    {
        let back = self.by.wrapping_neg();
        raise(self.octet, back);
        let Shifted { octet: _, by: _ } = self;
    }
}
