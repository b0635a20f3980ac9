// Type III sums of squares of an unbalanced two-way design, in memory that the caller lends.
// Within the crate that memory is an array of 6,400 places, whose type tells its length; `type3_ss` has a slice.
// Readings and the codes of both factors are three slices, as document 01 has them: refusal 5 tells their lengths.
#![tactic(auto)]

mod half;
mod wald;

ghost use Rattle.std.specs.Prelude.{◌≡◌};
ghost use Rattle.twoway_type3.specs.Answer.{type3_ss};

use results::Effects;
use twoway_normal::Levels;

// The sums of squares of a by b levels. The first 6,400 places of the lent memory are used, and left as +0.0.
// What does not fit gives +0.0 for each, as its clause says, and the memory stays as it is.
pub fn type3_ss(
    values: &[f64],
    factor_a: &[u32],
    factor_b: &[u32],
    a: usize,
    b: usize,
    work: &mut [f64],
) -> Effects
    ensures { (work.new, result) ≡ type3_ss values.now factor_a.now factor_b.now a b work.old }
{
    if twoway_normal::normal_equations(values, factor_a, factor_b, a, b, work) {
        let room = work.first_chunk_mut().unwrap();
        wald::all_effects(Levels { a, b }, room)
    } else {
        results::no_effects()
    }
}
