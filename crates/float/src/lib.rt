// Words for single floats that the source takes from its standard library. Document 01, "Forms that must change", wants helpers of our own for
// `abs`, `is_finite`, `min`, `max`, `clamp` and `powi`: they say which NaN, which zero and which rounding comes back.
#![tactic(auto)]

ghost use Rattle.std.specs.Prelude.{◌≡◌};
ghost use Rattle.std.specs.Float.{binary64};
ghost use Rattle.std.specs.Float.Ieee.{of_bits, to_bits};
ghost use Rattle.float.specs.Singles.{abs_of, is_finite, least_of, greatest_of, clamp_of, power_of};

// x itself. A NaN leaves with the bits 7FF8000000000000, which no contract can say: the model has one NaN.
#[tactic(auto, using(crate::proofs::Tested::is_tested))]
pub fn canon(x: f64) -> f64
    ensures { result ≡ x }
{
    if x.is_nan() { f64::NAN } else { x }
}

// The slice and k are what the clauses of its callers name: a part taken before it would ask that it is there.
// Each of the first k places is left as it is. A NaN in them gets those bits too. Where there are not k places, nothing is done.
pub fn canon_places(m: &mut [f64], k: usize)
    ensures { m.new ≡ m.old }
{
    if m.len() < k {
        return;
    }
    for x in &mut m[..k] {
        *x = canon(*x);
    }
}

// `x.abs()`: the sign bit is cleared. Bits are read only where x is no NaN, so a NaN leaves as `canon` would leave it.
#[tactic(auto, using(crate::proofs::Tested::no_sign, crate::proofs::Signs::cleared, crate::proofs::Signs::cleared_no_nan))]
pub fn abs(x: f64) -> f64
    ensures { result ≡ abs_of x }
{
    if x.is_nan() {
        return f64::NAN;
    }
    f64::from_bits(x.to_bits() % 0x8000000000000000)
}

// `x.is_finite()`: neither infinite nor a NaN.
#[tactic(auto, using(crate::proofs::Operands::below_infinity))]
pub fn is_finite(x: f64) -> bool
    ensures { result ≡ is_finite x }
{
    abs(x) < f64::INFINITY
}

// `a.min(b)`. Only b can leave as a NaN, and only where both are one: what a comparison picked is none.
#[tactic(auto, unfolding(crate::specs::Singles::least_of))]
pub fn least(a: f64, b: f64) -> f64
    ensures { result ≡ least_of a b }
{
    if a.is_nan() {
        return canon(b);
    }
    if b < a { b } else { a }
}

// `a.max(b)`, in the same way.
#[tactic(auto, unfolding(crate::specs::Singles::greatest_of))]
pub fn greatest(a: f64, b: f64) -> f64
    ensures { result ≡ greatest_of a b }
{
    if a.is_nan() {
        return canon(b);
    }
    if a < b { b } else { a }
}

// `x.clamp(low, high)`, for any two bounds. Only x can leave as a NaN.
#[tactic(auto, unfolding(crate::specs::Singles::clamp_of))]
pub fn clamp(x: f64, low: f64, high: f64) -> f64
    ensures { result ≡ clamp_of x low high }
{
    if x < low {
        if high < low {
            return high;
        }
        return low;
    }
    if high < x {
        return high;
    }
    canon(x)
}

// `x.powi(p)` for a p that is not negative, by document 01's rule. It halves, and counts no index: no `for` has these turns.
#[tactic(auto, using(crate::proofs::Powers::odd_turn, crate::proofs::Powers::even_turn, crate::proofs::Powers::next_turn, crate::proofs::Powers::last_turn, crate::proofs::Powers::ends), unfolding(crate::specs::Singles::power_of))]
pub fn power(x: f64, p: u32) -> f64
    ensures { result ≡ power_of x p }
{
    let mut result = 1.0;
    let mut base = x;
    let mut left = p;
    while left != 0 {
        if left % 2 == 1 {
            result *= base;
        }
        left /= 2;
        if left != 0 {
            base *= base;
        }
    }
    canon(result)
}

// The bits of x: 7FF8000000000000 of a NaN, whatever bits it has.
#[tactic(auto, using(crate::proofs::Tested::nan_word))]
pub fn bits_of(x: f64) -> u64
    ensures { result ≡ to_bits binary64 x }
{
    if x.is_nan() {
        return 0x7FF8000000000000;
    }
    x.to_bits()
}

// The float of these bits. A NaN's pattern is tested first, since `from_bits` is not defined there.
#[tactic(auto, using(crate::proofs::Patterns::pattern_handed, crate::proofs::Patterns::pattern_number))]
pub fn float_of(n: u64) -> f64
    ensures { result ≡ of_bits binary64 n }
{
    if n % 0x8000000000000000 > 0x7FF0000000000000 {
        return f64::NAN;
    }
    f64::from_bits(n)
}
