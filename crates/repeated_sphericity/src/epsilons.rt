// The epsilons of Greenhouse and Geisser, and of Huynh and Feldt.
ghost use Rattle.std.specs.Prelude.{◌≡◌, ◌-◌, ◌≤◌, take};
ghost use Rattle.base.specs.Limits.{most_conditions, most_subjects};
ghost use Rattle.repeated_sphericity.specs.Corrections.{gg_of};
ghost use Rattle.repeated_sphericity.specs.Epsilons.{values, square_sum, gg_raw, epsilon_gg, hf_raw, usable, epsilon_hf};

// The eigenvalues of p rows of p places, in the first p places. The matrix is used up, so it is a copy.
#[tactic(auto, unfolding(crate::specs::Epsilons::values, matrix_eigen::specs::Qr::blank_column))]
fn values(csc: [f64; matrix_places::SQUARE], p: usize) -> [f64; matrix_places::MOST_CONTRASTS]
    ensures { result ≡ values p csc }
{
    let mut m = csc;
    let mut out = [0.0; matrix_places::MOST_CONTRASTS];
    matrix_eigen::compute_eigenvalues(&mut m, p, &mut out);
    out
}

// The squares of the values, added up in their order.
#[tactic(auto, unfolding(stats::specs::Sums::sum_by))]
fn square_sum(values: &[f64]) -> f64
    ensures { result ≡ square_sum values.now }
{
    values.iter().map(|value| value * value).sum()
}

// p is a parameter, as in the definition `gg_raw p vs`.
// The squared sum over p times the sum of squares, unless that is too small or a NaN.
#[tactic(auto, unfolding(crate::specs::Epsilons::gg_raw))]
fn gg_raw(values: &[f64], p: usize) -> f64
    requires { p ≤ most_conditions }
    ensures { result ≡ gg_raw p values.now }
{
    let sum = stats::sum(values);
    let squares = square_sum(values);
    if squares > 1e-15 {
        sum * sum / (p as f64 * squares)
    } else {
        1.0
    }
}

// Not `Subjects` of repeated_contrasts: no readings belong to it, and three conditions are known at least.
// n subjects and k conditions, of which there are three or more.
#[derive(Clone, Copy)]
pub struct Design {
    pub n: usize,
    pub k: usize,
    ghost few_subjects: { n ≤ most_subjects },
    ghost some_conditions: { 3 ≤ k },
    ghost few_conditions: { k ≤ most_conditions },
}

impl Design {
    // Greenhouse and Geisser's epsilon of the first k - 1 values. It is no NaN: the two bounds are none.
    #[tactic(auto, unfolding(crate::specs::Epsilons::epsilon_gg))]
    fn epsilon_gg(self, values: [f64; matrix_places::MOST_CONTRASTS]) -> f64
        ensures { result ≡ epsilon_gg self.k (take (self.k - 1) values) }
    {
        let p = self.k - 1;
        let raw = gg_raw(&values[..p], p);
        float::least(float::greatest(raw, 1.0 / (p as f64)), 1.0)
    }

    // The epsilon of the matrix, k - 1 rows of k - 1 places.
    #[tactic(auto, unfolding(crate::specs::Corrections::gg_of))]
    pub fn gg_of(self, csc: [f64; matrix_places::SQUARE]) -> f64
        ensures { result ≡ gg_of self.k csc }
    {
        self.epsilon_gg(values(csc, self.k - 1))
    }

    // Huynh and Feldt's estimate from the epsilon e.
    #[tactic(auto, unfolding(crate::specs::Epsilons::hf_raw))]
    fn hf_raw(self, e: f64) -> f64
        ensures { result ≡ hf_raw self.n self.k e }
    {
        let subjects = self.n as f64;
        let p = self.k as f64 - 1.0;
        (subjects * p * e - 2.0) / (p * (subjects - 1.0 - p * e))
    }

    // Huynh and Feldt's epsilon. Where the estimate cannot be used, it is e as it came.
    #[tactic(auto, unfolding(crate::specs::Epsilons::epsilon_hf))]
    pub fn epsilon_hf(self, e: f64) -> f64
        ensures { result ≡ epsilon_hf self.n self.k e }
    {
        let hf = self.hf_raw(e);
        if usable(hf) { float::least(hf, 1.0) } else { e }
    }
}

// Whether an estimate is finite and above 0.
#[tactic(auto, unfolding(crate::specs::Epsilons::usable))]
fn usable(hf: f64) -> bool
    ensures { result ≡ usable hf }
{
    float::is_finite(hf) && hf > 0.0
}
