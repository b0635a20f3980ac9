// The normal equations of a two-way design, in memory that the caller lends.
// Whether the sizes fit is a `bool`: there is one way not to, and the definition says it so.
// Within the crate that memory is an array of 6,400 places, whose type tells its length; `normal_equations` has a slice.
// Readings and the codes of both factors are three slices, as document 01 has them: refusal 5 tells their lengths.
#![tactic(auto)]

mod codes;
mod counts;
mod levels;
mod normal;
mod shape;

ghost use Rattle.std.specs.Prelude.{◌≡◌};
ghost use Rattle.twoway_normal.specs.Equations.{normal_equations};

pub use levels::Levels;

// The places that a system of the most cells takes.
pub const SYSTEM: usize = base::MOST_CELLS * (base::MOST_CELLS + 1);

// X'X and, behind each of its rows, that of X'y, in the first a * b * (a * b + 1) places of the lent memory. Where the rows of codes were kept meanwhile,
// +0.0 is left.
// What does not fit: false, and the memory stays as it is.
#[tactic(auto, using(crate::proofs::Answers::not_taken_lem, crate::proofs::Answers::taken, crate::proofs::Fitted::fitting, crate::proofs::Laid::laid_first_places))]
pub fn normal_equations(
    values: &[f64],
    factor_a: &[u32],
    factor_b: &[u32],
    a: usize,
    b: usize,
    work: &mut [f64],
) -> bool
    ensures { (work.new, result) ≡ normal_equations values.now factor_a.now factor_b.now a b work.old }
{
    if !shape::fits(
        values.len(),
        factor_a.len(),
        factor_b.len(),
        a,
        b,
        work.len(),
    ) {
        return false;
    }
    let room = work.first_chunk_mut().unwrap();
    normal::normal_system(values, factor_a, factor_b, a, b, room);
    true
}
