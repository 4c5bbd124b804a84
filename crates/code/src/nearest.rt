// The nearest word of an octet, found in two tries.
ghost use Rattle.std.specs.Prelude.{◌≡◌, ◌≤◌};
ghost use Rattle.code.specs.Distances.{distance, nearest as nearest_of};
ghost use Rattle.code.specs.Tries.{Best};

use crate::costs::pair_costs;
use crate::nibble::Nibble;
use crate::shifted::Shifted;
use crate::width::Width;
use crate::words::word;

// The best word of a try, and its squared distance.
#[derive(Clone, Copy)]
struct Found {
    number: Nibble,
    distance: u32,
}

// The nearest of the words 0 to 7. These have equal bits in each pair of positions, so four pairs of costs tell all eight distances.
fn best_even(octet: [i32; 8], width: Width) -> Found
    ensures best { Best (distance width.bits octet) 8 result.number.value result.distance }
    ensures small { result.distance ≤ 8388608 }
{
    let a = pair_costs(octet, 0, width);
    let b = pair_costs(octet, 2, width);
    let c = pair_costs(octet, 4, width);
    let d = pair_costs(octet, 6, width);
    let mut best = Found {
        number: Nibble { value: 0 },
        distance: a.zero + b.zero + c.zero + d.zero,
    };
    // a loop: `min_by_key` of std would answer an Option that is never None
    for k in 1..8u8 {
        let number = Nibble { value: k };
        let bits = word(number);
        let distance = a.pick(bits[0]) + b.pick(bits[2]) + c.pick(bits[4]) + d.pick(bits[6]);
        // among equals the lowest number stays
        if distance < best.distance {
            best = Found { number, distance };
        }
    }
    best
}

// The words 8 to 15 are the words 0 to 7 with the odd positions turned, which a shift by the radius at the odd positions does too.
// A distance below the squared radius is that of the nearest word, so that there is no need of a second try.
pub fn nearest(octet: &mut [i32; 8], width: Width) -> Nibble
    ensures number { result.value ≡ nearest_of width.bits octet.old }
    ensures kept { octet.new ≡ octet.old }
{
    let even = best_even(*octet, width);
    let r = width.radius();
    if even.distance < r * r {
        return even.number;
    }
    let guard = Shifted::new(octet, r as i32);
    let odd = best_even(*guard.octet, width);
    if odd.distance < even.distance {
        return Nibble {
            value: odd.number.value + 8,
        };
    }
    even.number
}
