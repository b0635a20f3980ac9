// What is taken.
ghost use Rattle.std.specs.Prelude.{◌≡◌};
ghost use Rattle.twoway_normal.specs.Shape.{factor_fits, fits};

// Two to six levels, and a code for each of n readings.
#[tactic(auto, unfolding(crate::specs::Shape::factor_fits))]
fn factor_fits(levels: usize, codes: usize, n: usize) -> bool
    ensures { result ≡ factor_fits levels codes n }
{
    (2..=base::MOST_LEVELS).contains(&levels) && codes == n
}

#[tactic(auto, unfolding(crate::specs::Shape::fits))]
pub fn fits(n: usize, codes_a: usize, codes_b: usize, a: usize, b: usize, lent: usize) -> bool
    ensures { result ≡ fits n codes_a codes_b a b lent }
{
    factor_fits(a, codes_a, n)
        && factor_fits(b, codes_b, n)
        && n <= base::MOST_READINGS
        && base::SCRATCH_PLACES <= lent
}
