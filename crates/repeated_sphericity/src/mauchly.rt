// Mauchly's W of a matrix of p rows of p places.
// Loops go by number, as the loops of the definitions do: the two are read side by side, and a turn of one is a turn of the other.
ghost use Rattle.std.specs.Prelude.{◌≡◌, ◌≤◌};
ghost use Rattle.matrix_places.specs.Places.{most_contrasts};
ghost use Rattle.repeated_sphericity.specs.Corrections.{sphericity_of};
ghost use Rattle.repeated_sphericity.specs.Mauchly.{trace, mean_trace, det, w_raw, mauchly_w, df_w};

use results::SphericityResult;

// Memory is fixed and nothing is on a heap: the places have their number of rows beside them.
// C S C': p rows of p places, in the first of so many as there may be.
#[derive(Clone, Copy)]
pub struct Csc {
    pub places: [f64; matrix_places::SQUARE],
    pub p: usize,
    ghost few: { p ≤ most_contrasts },
}

impl Csc {
    // The diagonal, added up in its order.
    #[tactic(auto, using(base::proofs::Loops::step, base::proofs::Loops::ends), unfolding(crate::specs::Mauchly::trace))]
    fn trace(&self) -> f64
        ensures { result ≡ trace self.now.p self.now.places }
    {
        let mut t = -0.0;
        for i in 0..self.p {
            t += self.places[i * self.p + i];
        }
        t
    }

    // The mean of the diagonal.
    #[tactic(auto, unfolding(crate::specs::Mauchly::mean_trace))]
    fn mean_trace(&self) -> f64
        ensures { result ≡ mean_trace self.now.p self.now.places }
    {
        self.trace() / (self.p as f64)
    }

    // The determinant. The matrix is used up, so it is a copy.
    #[tactic(auto, unfolding(crate::specs::Mauchly::det))]
    fn det(&self) -> f64
        ensures { result ≡ det self.now.p self.now.places }
    {
        let mut m = self.places;
        matrix_linear::matrix_determinant(&mut m, self.p)
    }

    // The determinant over a power of the diagonal's mean, unless that is too small or a NaN.
    #[tactic(auto, unfolding(crate::specs::Mauchly::w_raw))]
    fn w_raw(&self) -> f64
        ensures { result ≡ w_raw self.now.p self.now.places }
    {
        let mean = self.mean_trace();
        if float::abs(mean) > 1e-15 {
            self.det() / float::power(mean, self.p as u32)
        } else {
            1.0
        }
    }

    #[tactic(auto, unfolding(crate::specs::Mauchly::mauchly_w))]
    fn mauchly_w(&self) -> f64
        ensures { result ≡ mauchly_w self.now.p self.now.places }
    {
        float::clamp(self.w_raw(), 0.0, 1.0)
    }

    #[tactic(auto, unfolding(crate::specs::Mauchly::df_w))]
    fn df_w(&self) -> f64
        ensures { result ≡ df_w self.now.p }
    {
        ((self.p * (self.p + 1)) as f64) / 2.0 - 1.0
    }

    // W and its degrees of freedom, which are a number.
    pub fn sphericity(&self) -> SphericityResult
        ensures { result ≡ sphericity_of self.now.p self.now.places }
    {
        SphericityResult {
            w: self.mauchly_w(),
            df: self.df_w(),
        }
    }
}
