// The product of two matrices, and C S C'. The rows of a matrix lie one after another in lent memory.
// Rows that are written stay a slice with their sizes beside it: a struct would have each clause say, beside what the rows become, that the sizes stay.
// Rows that are only read are slices and numbers in the clauses of the public functions, and the private ones hand them on.
// Whether the sizes are taken is a `bool`: there is one way not to be, and the definitions say it so.
#![tactic(auto)]

mod rows;

ghost use Rattle.std.specs.Prelude.{◌≡◌, length};
ghost use Rattle.matrix_product.specs.Product.{misfits, product_in, matrix_multiply_csc};

use rows::product_rows;

// The places of C S: as many rows as there may be contrasts, of as many places as there may be conditions.
const BETWEEN: usize = matrix_places::MOST_CONTRASTS * base::MOST_CONDITIONS;

// Is there no room for n rows of l places in a, for n rows of w places in out, or for w columns of l places in b?
#[tactic(auto, using(matrix_places::proofs::Sizes::sized), unfolding(crate::specs::Product::misfits))]
fn misfits(
    a: &[f64],
    b: &[f64],
    u: usize,
    t: usize,
    n: usize,
    l: usize,
    w: usize,
    out: &[f64],
) -> bool
    ensures { result ≡ misfits (length a.now) (length b.now) u t n l w (length out.now) }
{
    matrix_places::refuses(base::MOST_CONDITIONS, n, l, a.len())
        || matrix_places::refuses(base::MOST_CONDITIONS, n, w, out.len())
        || base::MOST_CONDITIONS < u
        || base::MOST_CONDITIONS < t
        || b.len() + t + u <= w * u + l * t
}

// The product of the n rows of l places of a and the w columns of b, to the first places of out. Column j of b begins at j * u, and its places are t apart:
// so one function serves a matrix (u = 1, t its row's length) and one that is turned over (u its row's length, t = 1).
// Where one of the matrices does not fit, nothing is changed.
#[tactic(auto, using(base::proofs::Bounds::then_of, base::proofs::Bounds::else_of, crate::proofs::Fits::Fits, crate::proofs::Fits::fitting), unfolding(crate::specs::Product::product_in))]
pub fn product(
    a: &[f64],
    b: &[f64],
    u: usize,
    t: usize,
    n: usize,
    l: usize,
    w: usize,
    out: &mut [f64],
)
    ensures { out.new ≡ product_in a.now b.now u t n l w out.old }
{
    if misfits(a, b, u, t, n, l, w, out) {
        return;
    }
    product_rows(a, b, u, t, n, l, w, out);
}

// C S C' to the first places of out, where C is the p rows of k places and S is k rows of k.
// Sizes that are not taken, or no room for one of the matrices: false, and nothing is changed.
#[tactic(auto, using(crate::proofs::Calls::csc_first, crate::proofs::Calls::csc_second, crate::proofs::Calls::csc_third, crate::proofs::Calls::csc_taken, base::proofs::Bounds::product_le, matrix_places::proofs::Sizes::Sized, matrix_places::proofs::Sizes::sized), unfolding(crate::specs::Product::blank))]
pub fn matrix_multiply_csc(c: &[f64], s: &[f64], p: usize, k: usize, out: &mut [f64]) -> bool
    ensures { (out.new, result) ≡ matrix_multiply_csc p k c.now s.now out.old }
{
    if matrix_places::refuses(matrix_places::MOST_CONTRASTS, p, k, c.len())
        || matrix_places::refuses(base::MOST_CONDITIONS, k, k, s.len())
        || matrix_places::refuses(matrix_places::MOST_CONTRASTS, p, p, out.len())
    {
        return false;
    }
    let mut cs = [0.0; BETWEEN];
    product_rows(c, s, 1, k, p, k, k, &mut cs);
    product_rows(&cs, c, k, 1, p, k, p, out);
    true
}
