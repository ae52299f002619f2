ghost use Rattle.std.specs.Prelude.{◌≡◌, ◌<◌, ◌≤◌};
ghost use Rattle.roster.specs.Multiple.{gcd, lcm};

// The greatest common divisor, by Euclid's steps.
fn greatest_divisor(a: u64, b: u64) -> u64
    ensures { result ≡ gcd a b }
{
    // Euclid's steps, which count no index; the library has no greatest common divisor
    let mut x = a;
    let mut y = b;
    while y > 0 {
        let rest = x % y;
        x = y;
        y = rest;
    }
    x
}

// The least common multiple of a hyperperiod and a spacing.
pub(crate) fn common_multiple(a: u64, b: u64) -> u64
    requires { (0 < a) × ((a ≤ 10000000) × ((0 < b) × (b ≤ 60000))) }
    ensures { result ≡ lcm a b }
{
    a / greatest_divisor(a, b) * b
}
