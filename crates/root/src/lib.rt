// The square root of a double, correctly rounded. Document 01, "Forms that must change", wants a helper of our own: the number is read off its bit pattern, and its root is
// found in whole numbers.
#![tactic(auto)]

ghost use Rattle.std.specs.Prelude.{◌≡◌, ◌*◌, ◌^◌, ◌≤◌, ◌<◌};
ghost use Rattle.root.specs.Root.{significand, exponent, root_bits, sqrt_of};
ghost use Rattle.root.specs.Inner.{IsFloor};
ghost use Rattle.root.specs.Nearest.{infinity};

// 2^52: the 53rd binary digit, which a pattern leaves out. Patterns below it are those of subnormal numbers.
const LEAD: u64 = 1 << 52;

// 27 binary digits, by which the root of a significand is made longer.
const DIGITS: u64 = 1 << 27;

// The pattern of the infinity.
const INFINITY: u64 = 0x7FF << 52;

// A first guess at the root of n. For an n from 2^52 on it lies on one of two straight lines, and is at most 8 in 1000 off.
fn guess(n: u64) -> u64
    requires { n < 2 ^ 54 }
    ensures { (2 ^ 25 ≤ result) × (result < 2 ^ 28) }
{
    if n < 2 * LEAD {
        39605106 + n / 160813903
    } else {
        56010078 + n / 227425203
    }
}

// The largest r with r * r <= n, by Newton's iteration. A step from any guess gives a number that is not too small, so the first whose square is not above n is the
// root. From 2^52 on two steps nearly always do. The library's `isqrt` halves 32 times: with it a square root takes three times as long.
#[tactic(auto, using(crate::proofs::Newton::newton_above, crate::proofs::Newton::newton_below, crate::proofs::Newton::sq_pos, crate::proofs::Newton::two_steps, crate::proofs::Newton::square_fits))]
fn isqrt(n: u64) -> u64
    requires { n < 2 ^ 54 }
    ensures { IsFloor n result }
{
    let g = guess(n);
    let h = (g + n / g) / 2;
    let mut r = (h + n / h) / 2;
    while n < r * r {
        r = (r + n / r) / 2;
    }
    r
}

// The largest r with r * r <= m * 2^54: the root of m, and then 27 binary digits more by one division.
#[tactic(auto, using(crate::proofs::Longer::range, crate::proofs::Longer::left, crate::proofs::Longer::few, crate::proofs::Longer::few_square, crate::proofs::Longer::exact, crate::proofs::Longer::less))]
fn long_root(m: u64) -> u64
    requires { (2 ^ 52 ≤ m) × (m < 2 ^ 54) }
    ensures { IsFloor (m * 2 ^ 54) result }
{
    let s = isqrt(m);
    let d = 2 * s;
    let rest = (m - s * s) * DIGITS;
    let u = rest / d;
    let v = rest % d;
    let r = s * DIGITS + u;
    if v * DIGITS < u * u { r - 1 } else { r }
}

// That b is above zero stays a clause of three functions: each would have to take a NonZeroU64 apart again.
// The 53 binary digits of the number above zero whose pattern is b. A subnormal number has fewer, and is moved up.
#[tactic(auto, using(crate::proofs::Scaled::twelve, crate::proofs::Scaled::significand_low, crate::proofs::Scaled::significand_high, crate::proofs::Scaled::significand_range, crate::proofs::Scaled::leads))]
fn significand(b: u64) -> u64
    requires { 0 < b }
    ensures { result ≡ significand b }
{
    if b < LEAD {
        b << (b.leading_zeros() - 11)
    } else {
        b % LEAD + LEAD
    }
}

// The exponent that goes with them, counted so that it is never negative.
#[tactic(auto, using(crate::proofs::Scaled::exponent_low, crate::proofs::Scaled::exponent_high, crate::proofs::Scaled::leads))]
fn exponent(b: u64) -> u64
    requires { 0 < b }
    ensures { result ≡ exponent b }
{
    if b < LEAD {
        (1031 - b.leading_zeros()) as u64
    } else {
        b / LEAD + 1019
    }
}

// The pattern of the root of the finite number above zero whose pattern is b. The exponent is halved, and the root's last digit is rounded away.
#[tactic(auto, using(crate::proofs::Scaled::shifted, crate::proofs::Scaled::found, crate::proofs::Scaled::long_range, crate::proofs::Scaled::exponent_range, crate::proofs::Scaled::radicand_range, crate::proofs::Scaled::root_bits_is))]
fn root_bits(b: u64) -> u64
    requires { (0 < b) × (b < infinity) }
    ensures { result ≡ root_bits b }
{
    let m = significand(b);
    let h = exponent(b);
    let r = long_root(m << (h % 2));
    (h / 2 + 1) * LEAD + (r + 1) / 2
}

// `x.sqrt()`: the double nearest to the root of x, ties to even; of -0.0 it is -0.0, and of a number below zero a NaN.
// The NaN leaves with the bits 7FF8000000000000, which no contract can say: that is the constant `NAN`.
#[tactic(auto, using(crate::proofs::Cases::infinity_itself, crate::proofs::Cases::root_nan, crate::proofs::Cases::root_below, crate::proofs::Cases::root_zero, crate::proofs::Cases::is_above, crate::proofs::Cases::bits_range, crate::proofs::Cases::root_above, crate::proofs::Cases::root_lt_infinity, crate::proofs::Cases::root_no_nan))]
pub fn sqrt(x: f64) -> f64
    ensures { result ≡ sqrt_of x }
{
    if x.is_nan() {
        return f64::NAN;
    }
    if x < 0.0 {
        return f64::NAN;
    }
    if x == 0.0 {
        return x;
    }
    let b = x.to_bits();
    if b == INFINITY {
        return x;
    }
    f64::from_bits(root_bits(b))
}
