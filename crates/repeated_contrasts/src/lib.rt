// The covariance of conditions, seen through orthonormal differences of neighbours.
// Whether the sizes are taken is a `bool`: there is one way not to be, and the definitions say it so.
#![tactic(auto)]

mod differences;
mod pairs;

ghost use Rattle.std.specs.Prelude.{◌≡◌};
ghost use Rattle.repeated_contrasts.specs.Contrasts.{fits, through_contrasts, contrast_covariance};

use differences::contrast_rows;
use pairs::Subjects;

// The places of the covariances of all pairs of conditions, and of the contrasts' rows.
const COVARIANCES: usize = base::MOST_CONDITIONS * base::MOST_CONDITIONS;

const CONTRASTS: usize = matrix_places::MOST_CONTRASTS * base::MOST_CONDITIONS;

// Are these sizes taken: n subjects, k conditions, so many readings and means, and so many places for the answer?
#[tactic(auto, using(std::proofs::lemmas::Bool::Decides::nat_tests), unfolding(crate::specs::Contrasts::fits))]
fn fits(n: usize, k: usize, readings: usize, means: usize, room: usize) -> bool
    ensures { result ≡ fits n k readings means room }
{
    (2..=base::MOST_SUBJECTS).contains(&n)
        && (2..=base::MOST_CONDITIONS).contains(&k)
        && readings == n * k
        && k <= means
        && (k - 1) * (k - 1) <= room
}

// C S C'.
fn through_contrasts(subjects: &Subjects, out: &mut [f64]) -> bool
    ensures { (out.new, result) ≡ through_contrasts subjects.now.n subjects.now.k subjects.now.readings.now subjects.now.means.now out.old }
{
    let k = subjects.k;
    let mut cov = [0.0; COVARIANCES];
    subjects.cov_rows(&mut cov);
    let mut c = [0.0; CONTRASTS];
    contrast_rows(k, &mut c);
    matrix_orthonormal::orthonormalize(&mut c, k - 1, k);
    matrix_product::matrix_multiply_csc(&c, &cov, k - 1, k, out)
}

// The covariance of the conditions, seen through orthonormal differences of neighbours: C S C', to the first places of out.
// `means` are the conditions' means. Sizes that are not taken, or no room: false, and nothing is changed.
#[tactic(auto, using(crate::proofs::Sizes::laid, crate::proofs::Calls::fitting, crate::proofs::Calls::not_fitting))]
pub fn contrast_covariance(
    readings: &[f64],
    means: &[f64],
    n: usize,
    k: usize,
    out: &mut [f64],
) -> bool
    ensures { (out.new, result) ≡ contrast_covariance n k readings.now means.now out.old }
{
    if fits(n, k, readings.len(), means.len(), out.len()) {
        let subjects = Subjects {
            readings,
            means,
            n,
            k,
        };
        through_contrasts(&subjects, out)
    } else {
        false
    }
}
