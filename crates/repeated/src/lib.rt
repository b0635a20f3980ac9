// Repeated-measures analysis of variance: one row of readings a subject, one column a condition.
// Readings and sizes are two slices, as document 01 has them: refusal 10 tells their sums.
#![tactic(auto)]

mod answer;

ghost use Rattle.std.specs.Prelude.{◌≡◌};
ghost use Rattle.repeated.specs.Results.{refused_result};
ghost use Rattle.repeated.specs.Anova.{repeated_measures_anova};

use base::Refusal;
use results::{AnovaTableRow, CorrectedResult, SphericityResult};

// The answer of a repeated-measures analysis. Unused places are zero, and so are the three results of sphericity where it was not worked out.
// Document 01 fixes this record, with the refusal beside zeros and a mark for sphericity.
// Memory is fixed and nothing is on a heap: the arrays have their counts beside them.
#[derive(Clone, Copy)]
pub struct RmAnovaResult {
    pub refusal: Refusal,
    pub n_subjects: usize,
    pub n_conditions: usize,
    pub within_subjects: AnovaTableRow,
    pub subjects: AnovaTableRow,
    pub error: AnovaTableRow,
    pub total: AnovaTableRow,
    pub has_sphericity: bool,
    pub sphericity: SphericityResult,
    pub greenhouse_geisser: CorrectedResult,
    pub huynh_feldt: CorrectedResult,
    pub grand_mean: f64,
    pub condition_means: [f64; base::MOST_CONDITIONS],
    pub subject_means: [f64; base::MOST_SUBJECTS],
}

// The answer that carries a refusal alone. No `From<Refusal>`: one private function with one caller is enough.
#[tactic(auto, unfolding(crate::specs::Results::refused_result, repeated_grid::specs::Table::no_conditions, repeated_grid::specs::Table::no_subjects))]
fn refused(refusal: Refusal) -> RmAnovaResult
    ensures { result ≡ refused_result refusal }
{
    let s = results::no_corrections();
    RmAnovaResult {
        refusal,
        n_subjects: 0,
        n_conditions: 0,
        within_subjects: results::no_row(),
        subjects: results::no_row(),
        error: results::no_row(),
        total: results::no_row(),
        has_sphericity: false,
        sphericity: s.sphericity,
        greenhouse_geisser: s.greenhouse_geisser,
        huynh_feldt: s.huynh_feldt,
        grand_mean: 0.0,
        condition_means: [0.0; base::MOST_CONDITIONS],
        subject_means: [0.0; base::MOST_SUBJECTS],
    }
}

// The analysis of rows that lie one after another in `readings`, as many readings in each as `sizes` says.
// Sphericity is worked out where it is asked for and there are three conditions or more.
#[tactic(auto, using(base::proofs::Order::answers_err, base::proofs::Order::answers_ok, repeated_checks::proofs::Doors::shown, crate::proofs::Designs::table_there), unfolding(crate::specs::Anova::repeated_measures_anova))]
pub fn repeated_measures_anova(
    readings: &[f64],
    sizes: &[u32],
    compute_sphericity: bool,
) -> RmAnovaResult
    ensures { result ≡ repeated_measures_anova readings.now sizes.now compute_sphericity }
{
    match repeated_checks::repeated_refusal(readings, sizes) {
        Err(refusal) => refused(refusal),
        Ok(()) => {
            let n = sizes.len();
            let k = sizes[0] as usize;
            let t = repeated_grid::rm_table(readings, n, k);
            answer::answer(readings, n, k, t, compute_sphericity)
        }
    }
}
