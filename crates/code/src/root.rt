// The square root of a whole number, rounded up.
ghost use Rattle.std.specs.Prelude.{◌≡◌};
ghost use Rattle.code.specs.Roots.{root_up};

// The least whole number whose square is at least s.
pub fn root_up(s: u32) -> u32
    ensures { result ≡ root_up s }
{
    let root = s.isqrt();
    if root * root < s { root + 1 } else { root }
}
