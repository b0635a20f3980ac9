// Q and R of a small matrix, and its eigenvalues by QR. The rows of a matrix lie one after another in lent memory.
// Rows that are written stay a slice with their sizes beside it: a struct would have each clause say, beside what the rows become, that the sizes stay.
// Rows that are only read are slices and numbers in the clauses of the public functions, and the private ones hand them on.
// Whether the sizes are taken is a `bool`: there is one way not to be, and the definitions say it so.
#![tactic(auto)]

mod qr;
mod values;

ghost use Rattle.std.specs.Prelude.{◌≡◌};
ghost use Rattle.matrix_eigen.specs.Qr.{qr_decomposition};
ghost use Rattle.matrix_eigen.specs.Values.{compute_eigenvalues};

use qr::{qr_columns, wipe};
use values::{diagonal, rounds};

// Q and R of the n rows of n places, to the first places of q and of r.
// Sizes that are not taken, or no room for one of the matrices: false, and nothing is changed.
#[tactic(auto, using(base::proofs::Bounds::product_le, crate::proofs::Calls::qr_first, crate::proofs::Calls::qr_second, crate::proofs::Calls::qr_third, crate::proofs::Calls::qr_taken, matrix_places::proofs::Sizes::Sized, matrix_places::proofs::Sizes::sized))]
pub fn qr_decomposition(a: &[f64], n: usize, q: &mut [f64], r: &mut [f64]) -> bool
    ensures { ((q.new, r.new), result) ≡ qr_decomposition n a.now (q.old, r.old) }
{
    if matrix_places::refuses(matrix_places::MOST_CONTRASTS, n, n, a.len())
        || matrix_places::refuses(matrix_places::MOST_CONTRASTS, n, n, q.len())
        || matrix_places::refuses(matrix_places::MOST_CONTRASTS, n, n, r.len())
    {
        return false;
    }
    wipe(q, n * n);
    wipe(r, n * n);
    qr_columns(a, n, q, r);
    float::canon_places(q, n * n);
    float::canon_places(r, n * n);
    true
}

// The eigenvalues of the n rows of n places, to the first n places of values. In m stays the matrix after the last round.
// Sizes that are not taken, or no room for one of the two: false, and nothing is changed.
#[tactic(auto, using(crate::proofs::Calls::eigen_first, crate::proofs::Calls::eigen_second, crate::proofs::Calls::eigen_taken, matrix_places::proofs::Sizes::Sized, matrix_places::proofs::Sizes::sized))]
pub fn compute_eigenvalues(m: &mut [f64], n: usize, values: &mut [f64]) -> bool
    ensures { ((m.new, values.new), result) ≡ compute_eigenvalues n (m.old, values.old) }
{
    if matrix_places::refuses(matrix_places::MOST_CONTRASTS, n, n, m.len())
        || matrix_places::refuses(matrix_places::MOST_CONTRASTS, n, 1, values.len())
    {
        return false;
    }
    rounds(m, n);
    diagonal(m, n, values);
    true
}
