// The effects' sums of squares: by the plain formulas where the design is balanced, else by Type III.
ghost use Rattle.std.specs.Prelude.{◌≡◌};
ghost use Rattle.twoway.specs.Inner.{squares_left, Ready};

use results::Effects;

// Of a by b cells with these means and counts. They are two slices: the means are a field of the record of twoway_means, the counts one of that of
// twoway_checks. The numbers of levels are two parameters, as in the calls of twoway_balanced and twoway_type3. The scratch is left wiped.
#[tactic(auto, using(crate::proofs::Design::balanced_way, crate::proofs::Design::type3_way))]
pub fn squares(
    values: &[f64],
    factor_a: &[u32],
    factor_b: &[u32],
    means: &[f64],
    counts: &[usize],
    a: usize,
    b: usize,
    scratch: &mut [f64],
) -> Effects
    requires { Ready values.now factor_a.now factor_b.now counts.now a b scratch.old }
    ensures { (scratch.new, result) ≡ squares_left values.now factor_a.now factor_b.now a b means.now counts.now scratch.old }
{
    let first = counts[0];
    if twoway_balanced::other_count(counts) == first {
        lent::wipe(scratch);
        twoway_balanced::balanced_ss(means, first, a, b)
    } else {
        twoway_type3::type3_ss(values, factor_a, factor_b, a, b, scratch)
    }
}
