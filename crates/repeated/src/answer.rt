// The answer of a repeated-measures analysis, once its table is known.
ghost use Rattle.std.specs.Prelude.{◌≡◌, ◌≤◌};
ghost use Rattle.base.specs.Limits.{most_conditions, most_subjects};
ghost use Rattle.repeated.specs.Results.{asked, corrections_of, answer_of};

use crate::RmAnovaResult;
use base::Refusal;
use repeated_grid::RmTable;
use results::Corrections;

// A `bool`: the clause of `repeated_measures_anova` has it, and the record's mark is the same.
// Is sphericity worked out? Two conditions have one contrast, which is always spherical.
fn asked(compute_sphericity: bool, k: usize) -> bool
    ensures { result ≡ asked compute_sphericity k }
{
    compute_sphericity && 3 <= k
}

// F and its degrees of freedom are three parameters, which the clause of `compute_sphericity_corrections` names one by one.
// It hands back zeros and no Option: document 01's record has a mark and zeros, and an Option would be taken apart again at once.
// The results of sphericity, or zeros where it is not asked for.
fn corrections(
    readings: &[f64],
    means: &[f64],
    n: usize,
    k: usize,
    wanted: bool,
    f_stat: f64,
    df_num: f64,
    df_den: f64,
) -> Corrections
    ensures { result ≡ corrections_of readings.now means.now n k wanted f_stat df_num df_den }
{
    if wanted {
        repeated_sphericity::compute_sphericity_corrections(
            readings, means, n, k, f_stat, df_num, df_den,
        )
    } else {
        results::no_corrections()
    }
}

#[tactic(auto, using(float::proofs::Counts::small_count), unfolding(crate::specs::Results::answer_of))]
pub fn answer(
    readings: &[f64],
    n: usize,
    k: usize,
    t: RmTable,
    compute_sphericity: bool,
) -> RmAnovaResult
    requires { (n ≤ most_subjects) × (k ≤ most_conditions) }
    ensures { result ≡ answer_of readings.now n k t compute_sphericity }
{
    let n_f = n as f64;
    let k_f = k as f64;
    let error = results::plain_row(t.ss_error, (n_f - 1.0) * (k_f - 1.0));
    let within = results::effect_row(t.ss_conditions, k_f - 1.0, error.ms);
    let wanted = asked(compute_sphericity, k);
    let s = corrections(
        readings,
        &t.condition_means,
        n,
        k,
        wanted,
        within.f,
        within.df,
        error.df,
    );
    RmAnovaResult {
        refusal: Refusal::none(),
        n_subjects: n,
        n_conditions: k,
        within_subjects: within,
        subjects: results::plain_row(t.ss_subjects, n_f - 1.0),
        error,
        total: results::plain_row(t.ss_total, n_f * k_f - 1.0),
        has_sphericity: wanted,
        sphericity: s.sphericity,
        greenhouse_geisser: s.greenhouse_geisser,
        huynh_feldt: s.huynh_feldt,
        grand_mean: t.grand_mean,
        condition_means: t.condition_means,
        subject_means: t.subject_means,
    }
}
