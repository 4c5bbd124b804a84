// The two operations on rows that every product is made of, for every kind of coefficient.
ghost use Rattle.std.specs.Prelude.{◌≡◌};
ghost use Rattle.ring.specs.Rows.{add_into, turned};

use crate::coefficient::Coefficient;

// x times a row: each coefficient goes up one place, and the top one comes back as x^(n/2) - 1.
pub fn turn<C: Coefficient>(row: &mut [C])
    ensures { row.new ≡ turned C.ring row.old }
{
    if row.is_empty() {
        return;
    }
    row.rotate_right(1);
    let top = row[0];
    row[0] = top.minus();
    let half = row.len() / 2;
    row[half] = row[half].plus(top);
}

// Adds k times a row to another, at the places that both have.
pub fn add_multiple<C: Coefficient>(target: &mut [C], k: C, row: &[C])
    ensures { target.new ≡ add_into C.ring target.old k row.now }
{
    // A proof learns nothing of what a `zip` over `iter_mut` writes, so each place is written by its index.
    for (i, x) in row.iter().enumerate().take(target.len()) {
        target[i] = target[i].plus(k.times(*x));
    }
}
