// Repeated measures: Mauchly's W, and the degrees of freedom corrected for a lack of sphericity.
#![tactic(auto)]

mod epsilons;
mod mauchly;

ghost use Rattle.std.specs.Prelude.{◌≡◌};
ghost use Rattle.repeated_sphericity.specs.Corrections.{corrected, corrections_of, compute_sphericity_corrections};

use epsilons::Design;
use mauchly::Csc;
use results::{CorrectedResult, Corrections};

// F and its degrees of freedom stay three parameters, which the clause of `compute_sphericity_corrections` names one by one.
// One corrected analysis. The epsilons are canonical, F may be any NaN.
fn corrected(f_stat: f64, df_num: f64, df_den: f64, epsilon: f64) -> CorrectedResult
    ensures { result ≡ corrected f_stat df_num df_den epsilon }
{
    CorrectedResult {
        epsilon,
        df_num_corrected: float::canon(df_num * epsilon),
        df_den_corrected: float::canon(df_den * epsilon),
        f_statistic: float::canon(f_stat),
    }
}

// Everything, from C S C'.
#[tactic(auto, unfolding(crate::specs::Corrections::corrections_of))]
fn corrections_of(
    design: Design,
    csc: [f64; matrix_places::SQUARE],
    f_stat: f64,
    df_num: f64,
    df_den: f64,
) -> Corrections
    ensures { result ≡ corrections_of design.n design.k csc f_stat df_num df_den }
{
    let gg = design.gg_of(csc);
    let hf = design.epsilon_hf(gg);
    Corrections {
        sphericity: Csc {
            places: csc,
            p: design.k - 1,
        }
        .sphericity(),
        greenhouse_geisser: corrected(f_stat, df_num, df_den, gg),
        huynh_feldt: corrected(f_stat, df_num, df_den, hf),
    }
}

// The corrections of n subjects and k conditions: the readings subject by subject, the conditions' means, and the F with its degrees of freedom.
// Nothing but zeros where the sizes are not taken, as its clause says: the record that document 01 fixes has zeros there.
#[tactic(auto, using(crate::proofs::Fitted::two_conditions, crate::proofs::Fitted::not_taken_lem, crate::proofs::Fitted::sizes_taken, crate::proofs::Fitted::known), unfolding(crate::specs::Corrections::csc, matrix_eigen::specs::Values::zeros))]
pub fn compute_sphericity_corrections(
    readings: &[f64],
    means: &[f64],
    n: usize,
    k: usize,
    f_stat: f64,
    df_num: f64,
    df_den: f64,
) -> Corrections
    ensures { result ≡ compute_sphericity_corrections n k readings.now means.now f_stat df_num df_den }
{
    if k < 3 {
        return results::no_corrections();
    }
    let mut csc = [0.0; matrix_places::SQUARE];
    if repeated_contrasts::contrast_covariance(readings, means, n, k, &mut csc) {
        corrections_of(Design { n, k }, csc, f_stat, df_num, df_den)
    } else {
        results::no_corrections()
    }
}
