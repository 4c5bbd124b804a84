// Trimming: each coefficient is halved, a half going up.
ghost use Rattle.std.specs.Prelude.{◌≡◌, map};
ghost use Rattle.wrapping.specs.Buffers.{over};
ghost use Rattle.wrapping.specs.Trims.{halved as halved_of, halving, trimmed_allowance};

use code::width::Width;

// Half of a coefficient at a width, modulo the radius.
fn halved(c: u16, width: Width) -> u16
    ensures { result ≡ halved_of width.bits c }
{
    ((c as u32 + 1) / 2 % width.radius()) as u16
}

// Halves each coefficient of a row.
pub fn halve(row: &mut [u16], width: Width)
    ensures { row.new ≡ map (halved_of width.bits) row.old }
{
    for c in row.iter_mut() {
        *c = halved(*c, width);
    }
}

// Writes 1 where a coefficient is odd and 0 elsewhere, at the places that both rows have.
pub fn halvings(row: &[u16], out: &mut [u16])
    ensures { out.new ≡ over (map halving row.now) out.old }
{
    // A proof learns nothing of what a `zip` over `iter_mut` writes, so each place is written by its index.
    for (i, c) in row.iter().enumerate().take(out.len()) {
        out[i] = *c % 2;
    }
}
