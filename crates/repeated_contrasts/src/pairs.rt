// The readings of all subjects, and the covariances of all pairs of conditions. They need not be canonical: what is made of them is.
// Loops go by number, as the loops of the definitions do: the two are read side by side, and a turn of one is a turn of the other.
ghost use Rattle.std.specs.Prelude.{◌≡◌, ◌+◌, ◌*◌, ◌≤◌, ◌<◌, length};
ghost use Rattle.base.specs.Limits.{most_subjects, most_conditions};
ghost use Rattle.repeated_contrasts.specs.Covariance.{covariance, cov_row, cov_rows};

// Not `Grid` of repeated_grid: here two of each are known at least, and the means lie beside the readings.
// The readings of n subjects under k conditions, subject by subject, and the conditions' means.
#[derive(Clone, Copy)]
pub struct Subjects<'a> {
    pub readings: &'a [f64],
    pub means: &'a [f64],
    pub n: usize,
    pub k: usize,
    ghost low_n: { 2 ≤ n },
    ghost high_n: { n ≤ most_subjects },
    ghost low_k: { 2 ≤ k },
    ghost high_k: { k ≤ most_conditions },
    ghost all: { length readings.now ≡ n * k },
    ghost each: { k ≤ length means.now },
}

impl Subjects<'_> {
    // The covariance of the conditions i and j.
    #[tactic(auto, using(base::proofs::Loops::step, base::proofs::Loops::ends), unfolding(crate::specs::Covariance::cov_sum))]
    pub fn covariance(&self, i: usize, j: usize) -> f64
        requires { (i < self.now.k) × (j < self.now.k) }
        ensures { result ≡ covariance self.now.n self.now.k self.now.readings.now self.now.means.now i j }
    {
        let a = self.means[i];
        let b = self.means[j];
        let mut sum = 0.0;
        for s in 0..self.n {
            let row = s * self.k;
            sum += (self.readings[row + i] - a) * (self.readings[row + j] - b);
        }
        sum / ((self.n - 1) as f64)
    }

    // Row i of the matrix.
    #[tactic(auto, using(base::proofs::Loops::step, base::proofs::Loops::ends), unfolding(crate::specs::Covariance::cov_row))]
    pub fn cov_row(&self, i: usize, out: &mut [f64])
        requires { (i < self.now.k) × (i * self.now.k + self.now.k ≤ length out.old) }
        ensures { out.new ≡ cov_row self.now.n self.now.k self.now.readings.now self.now.means.now i out.old }
    {
        for j in 0..self.k {
            out[i * self.k + j] = self.covariance(i, j);
        }
    }

    // All k rows.
    #[tactic(auto, using(base::proofs::Loops::step, base::proofs::Loops::ends), unfolding(crate::specs::Covariance::cov_rows))]
    pub fn cov_rows(&self, out: &mut [f64])
        requires { self.now.k * self.now.k ≤ length out.old }
        ensures { out.new ≡ cov_rows self.now.n self.now.k self.now.readings.now self.now.means.now out.old }
    {
        for i in 0..self.k {
            self.cov_row(i, out);
        }
    }
}
