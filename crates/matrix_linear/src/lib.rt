// Dense linear algebra on flat slices: the rows of a matrix lie one after another in lent memory.
// Rows that are written stay a slice with their sizes beside it: a struct would have each clause say, beside what the rows become, that the sizes stay.
// Rows that are only read are slices and numbers in the clauses of the public functions, and the private ones hand them on.
#![tactic(auto)]

mod clearing;
mod determinant;
mod inverse;
mod pivots;
mod place;
mod rows;
mod system;

ghost use Rattle.std.specs.Prelude.{◌≡◌};
ghost use Rattle.matrix_linear.specs.Skips.{not_taken};
ghost use Rattle.matrix_linear.specs.System.{solve_linear_system};
ghost use Rattle.matrix_linear.specs.Inverse.{matrix_inverse};
ghost use Rattle.matrix_linear.specs.Determinant.{matrix_determinant};

use clearing::{Below, Others, columns};
use determinant::det_of;
use inverse::unit;
use system::backward;

// As many levels of one factor by as many of the other: no system of a two-way analysis is larger.
const MOST_ROWS: usize = base::MOST_LEVELS * base::MOST_LEVELS;

// Whether the rows were taken, and how many columns elimination skipped since their pivots were too small.
// A mark and a count, and no Option: the callers that use `skipped` make calls that are always taken, and would have to say what a None counts.
#[derive(Clone, Copy)]
pub struct Elimination {
    pub taken: bool,
    pub skipped: usize,
}

// Too many rows, or no room for them: one private function of two zeros.
fn not_taken() -> Elimination
    ensures { result ≡ not_taken }
{
    Elimination {
        taken: false,
        skipped: 0,
    }
}

// Not one function with the inversion: the width differs, and what is done before the columns and behind them. The columns themselves are one function.
// Solves the system of n rows of n + 1 places, right sides last: the solution takes their places.
// Too many rows, or no room for them: not taken, and nothing is changed.
#[tactic(auto, using(crate::proofs::Calls::solve_many, crate::proofs::Calls::solve_short, crate::proofs::Calls::solve_taken, base::proofs::Bounds::product_le), unfolding(crate::specs::System::column, crate::specs::System::cleared))]
pub fn solve_linear_system(m: &mut [f64], n: usize) -> Elimination
    ensures { (m.new, result) ≡ solve_linear_system n m.old }
{
    if MOST_ROWS < n || m.len() < n * (n + 1) {
        return not_taken();
    }
    let skipped = columns::<Below>(m, n, n + 1);
    backward(m, n);
    float::canon_places(m, n * (n + 1));
    Elimination {
        taken: true,
        skipped,
    }
}

// Inverts the matrix in the left half of n rows of 2 n places: the inverse comes to the right half.
// Too many rows, or no room for them: not taken, and nothing is changed.
#[tactic(auto, using(crate::proofs::Calls::inverse_many, crate::proofs::Calls::inverse_short, crate::proofs::Calls::inverse_taken, base::proofs::Bounds::product_le), unfolding(crate::specs::Inverse::full_column, crate::specs::Inverse::reduced))]
pub fn matrix_inverse(m: &mut [f64], n: usize) -> Elimination
    ensures { (m.new, result) ≡ matrix_inverse n m.old }
{
    if MOST_ROWS < n || m.len() < n * (2 * n) {
        return not_taken();
    }
    unit(m, n);
    let skipped = columns::<Others>(m, n, 2 * n);
    float::canon_places(m, n * (2 * n));
    Elimination {
        taken: true,
        skipped,
    }
}

// The determinant of n rows of n places, which are used up.
// Too many rows, or no room for them: a NaN, as its clause says, and nothing is changed.
#[tactic(auto, using(crate::proofs::Calls::determinant_many, crate::proofs::Calls::determinant_short, crate::proofs::Calls::determinant_taken, base::proofs::Bounds::product_le))]
pub fn matrix_determinant(m: &mut [f64], n: usize) -> f64
    ensures { (m.new, result) ≡ matrix_determinant n m.old }
{
    if MOST_ROWS < n || m.len() < n * n {
        return f64::NAN;
    }
    let d = det_of(m, n);
    float::canon_places(m, n * n);
    float::canon(d)
}
