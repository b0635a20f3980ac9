// Rows made orthonormal. The rows of a matrix lie one after another in lent memory.
// Rows that are written stay a slice with their sizes beside it: a struct would have each clause say, beside what the rows become, that the sizes stay.
// Rows that are only read are slices and numbers in the clauses of the public functions, and the private ones hand them on.
// Whether the sizes are taken is a `bool`: there is one way not to be, and the definitions say it so.
#![tactic(auto)]

mod rows;

ghost use Rattle.std.specs.Prelude.{◌≡◌};
ghost use Rattle.matrix_orthonormal.specs.Orthonormal.{orthonormalize};

use rows::orthonormal_rows;

// The p rows of k places become orthonormal, each after those before it.
// Sizes that are not taken, or no room for the rows: false, and nothing is changed.
#[tactic(auto, using(crate::proofs::Calls::orthonormal_refused, crate::proofs::Calls::orthonormal_taken, matrix_places::proofs::Sizes::Sized, matrix_places::proofs::Sizes::sized))]
pub fn orthonormalize(c: &mut [f64], p: usize, k: usize) -> bool
    ensures { (c.new, result) ≡ orthonormalize p k c.old }
{
    if matrix_places::refuses(matrix_places::MOST_CONTRASTS, p, k, c.len()) {
        return false;
    }
    orthonormal_rows(c, p, k);
    float::canon_places(c, p * k);
    true
}
