//! Least common multiples.

ghost use Rattle.std.specs.Prelude.{◌≡◌, ℕ, ◌*◌, ◌<◌, ◌≤◌, ◌^◌, MatchOption};
ghost use Rattle.std.specs.Int.{◌∣◌};
ghost use Rattle.demand_core.specs.Multiples.{IsCommon, IsLeastCommon, DividesWith};

/// The greatest common divisor, by Euclid's algorithm.
fn gcd(a: u32, b: u32) -> u32
    ensures of_a { result ∣ a }
    ensures of_b { result ∣ b }
    ensures greatest { DividesWith a b result }
{
    let mut x = a;
    let mut y = b;
    while y != 0 {
        let rest = x % y;
        x = y;
        y = rest;
    }
    x
}

/// The least common multiple, or `None` exactly where it exceeds the limit.
pub fn lcm_to(a: u32, b: u32, limit: u32) -> Option<u32>
    requires a_positive { 0 < a }
    requires b_positive { 0 < b }
    ensures { MatchOption result ((m : ℕ) → IsCommon a b m → limit < m) (λ m. (m ≤ limit) × IsLeastCommon a b m) }
{
    let divisor = gcd(a, b);
    let multiple = u64::from(a / divisor) * u64::from(b);
    if multiple <= u64::from(limit) {
        Some(multiple as u32)
    } else {
        None
    }
}
