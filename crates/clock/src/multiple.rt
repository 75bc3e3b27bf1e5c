// Common divisors and common multiples.
ghost use Rattle.std.specs.Prelude.{[], ◌∷◌};
ghost use Rattle.clock.specs.Multiple.{GreatestCommon, LeastCommon, LeastMultiples};

// The greatest common divisor; that of 0 and 0 is 0.
pub fn gcd(a: u32, b: u32) -> u32
    ensures { GreatestCommon a b result }
{
    let mut x = a;
    let mut y = b;
    while y != 0 {
        let rest = x % y;
        x = y;
        y = rest;
    }
    x
}

// The least common multiple; it is 0 where one of the two is.
pub fn lcm(a: u32, b: u32) -> u64
    ensures pair { LeastCommon (a ∷ b ∷ []) result }
    ensures lists { LeastMultiples }
{
    if a == 0 {
        return 0;
    }
    u64::from(b / gcd(a, b)) * u64::from(a)
}
