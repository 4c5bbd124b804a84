// Joining: the coefficients of two wrappings at one width are added.
ghost use Rattle.std.specs.Prelude.{◌≡◌, ◌+◌, ◌%◌, ◌^◌};
ghost use Rattle.wrapping.specs.Joins.{joined};

use code::width::Width;

// The sum of two coefficients modulo 2^w.
fn sum(a: u16, b: u16, width: Width) -> u16
    ensures { result ≡ (a + b) % 2 ^ width.bits }
{
    ((a as u32 + b as u32) % (2 * width.radius())) as u16
}

// Adds a row to another modulo 2^w, at the places that both have.
pub fn add(row: &mut [u16], other: &[u16], width: Width)
    ensures { row.new ≡ joined width.bits row.old other.now }
{
    // A proof learns nothing of what a `zip` over `iter_mut` writes, so each place is written by its index.
    for (i, x) in other.iter().enumerate().take(row.len()) {
        row[i] = sum(row[i], *x, width);
    }
}
