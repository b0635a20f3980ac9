// What analyses answer, where more than one crate makes the answer: one-way, the rows of a table, the effects of two factors, and the corrections for a
// lack of sphericity.
#![tactic(auto)]

ghost use Rattle.std.specs.Prelude.{◌≡◌};
ghost use Rattle.results.specs.Results.{refused_result};
ghost use Rattle.results.specs.Rows.{effect_row, plain_row, no_row};
ghost use Rattle.results.specs.Effects.{no_skips, no_effects};
ghost use Rattle.results.specs.Corrections.{no_corrected, no_corrections};

use base::Refusal;

// The answer of a one-way analysis. What Welch's has not is zero beside a mark that says so. Document 01 ("Refusal numbers", "Forms that must change") fixes this record, with a refusal
// beside zeros and marks in place of Option; the edits `refused--..` change single fields of it. No `From<Refusal>` and no `Default` makes it: those edits name the function.
// Memory is fixed and nothing is on a heap: the arrays have their counts beside them.
#[derive(Clone, Copy)]
pub struct OneWayAnovaResult {
    pub refusal: Refusal,
    pub statistic: f64,
    pub df_between: f64,
    pub df_within: f64,
    pub has_ss: bool,
    pub ss_between: f64,
    pub ss_within: f64,
    pub ss_total: f64,
    pub has_ms: bool,
    pub ms_between: f64,
    pub ms_within: f64,
    pub n_groups: usize,
    pub n_total: u32,
    pub group_sizes: [u32; base::MOST_GROUPS],
    pub group_means: [f64; base::MOST_GROUPS],
    pub has_grand_mean: bool,
    pub grand_mean: f64,
}

// The answer that carries a refusal alone. This and the other answers of zeros are written out field by field: must-fail edits change single fields of them.
#[tactic(auto, unfolding(crate::specs::Results::no_sizes, crate::specs::Results::no_means))]
pub fn refused(refusal: Refusal) -> OneWayAnovaResult
    ensures { result ≡ refused_result refusal }
{
    OneWayAnovaResult {
        refusal,
        statistic: 0.0,
        df_between: 0.0,
        df_within: 0.0,
        has_ss: false,
        ss_between: 0.0,
        ss_within: 0.0,
        ss_total: 0.0,
        has_ms: false,
        ms_between: 0.0,
        ms_within: 0.0,
        n_groups: 0,
        n_total: 0,
        group_sizes: [0; base::MOST_GROUPS],
        group_means: [0.0; base::MOST_GROUPS],
        has_grand_mean: false,
        grand_mean: 0.0,
    }
}

// One row of the table: `f` is the source's `f_statistic`. Where there is no F, it is zero beside a mark that says so: document 01's
// presence marks, which the edits `effect_row--no-mark` and `plain_row--a-mark` change.
#[derive(Clone, Copy)]
pub struct AnovaTableRow {
    pub ss: f64,
    pub df: f64,
    pub ms: f64,
    pub has_f: bool,
    pub f: f64,
}

// An effect: with its F over the error's mean square.
pub fn effect_row(ss: f64, df: f64, ms_error: f64) -> AnovaTableRow
    ensures { result ≡ effect_row ss df ms_error }
{
    let ms = float::canon(ss / df);
    AnovaTableRow {
        ss: float::canon(ss),
        df: float::canon(df),
        ms,
        has_f: true,
        f: float::canon(ms / ms_error),
    }
}

// Errors and totals have no F.
pub fn plain_row(ss: f64, df: f64) -> AnovaTableRow
    ensures { result ≡ plain_row ss df }
{
    AnovaTableRow {
        ss: float::canon(ss),
        df: float::canon(df),
        ms: float::canon(ss / df),
        has_f: false,
        f: 0.0,
    }
}

// The row of a refused analysis.
pub fn no_row() -> AnovaTableRow
    ensures { result ≡ no_row }
{
    AnovaTableRow {
        ss: 0.0,
        df: 0.0,
        ms: 0.0,
        has_f: false,
        f: 0.0,
    }
}

// How many columns were skipped by the solver of the normal equations, by the inverse of X'X, and by the inverses of the blocks of A, B
// and the interaction.
#[derive(Clone, Copy)]
pub struct Skips {
    pub solver: usize,
    pub inverse: usize,
    pub block_a: usize,
    pub block_b: usize,
    pub block_ab: usize,
}

// Nothing was skipped.
pub fn no_skips() -> Skips
    ensures { result ≡ no_skips }
{
    Skips {
        solver: 0,
        inverse: 0,
        block_a: 0,
        block_b: 0,
        block_ab: 0,
    }
}

// The sums of squares of factor A, of factor B and of their interaction, and what was skipped on the way to them.
#[derive(Clone, Copy)]
pub struct Effects {
    pub ss_a: f64,
    pub ss_b: f64,
    pub ss_ab: f64,
    pub skips: Skips,
}

// Nothing but zeros: the effects of a design that does not fit.
pub fn no_effects() -> Effects
    ensures { result ≡ no_effects }
{
    Effects {
        ss_a: 0.0,
        ss_b: 0.0,
        ss_ab: 0.0,
        skips: no_skips(),
    }
}

// Mauchly's W and its degrees of freedom.
#[derive(Clone, Copy)]
pub struct SphericityResult {
    pub w: f64,
    pub df: f64,
}

// The degrees of freedom times an epsilon, beside the F that they belong to.
#[derive(Clone, Copy)]
pub struct CorrectedResult {
    pub epsilon: f64,
    pub df_num_corrected: f64,
    pub df_den_corrected: f64,
    pub f_statistic: f64,
}

#[derive(Clone, Copy)]
pub struct Corrections {
    pub sphericity: SphericityResult,
    pub greenhouse_geisser: CorrectedResult,
    pub huynh_feldt: CorrectedResult,
}

// Zeros, as `no_corrections` has them: one private function with one caller.
fn no_corrected() -> CorrectedResult
    ensures { result ≡ no_corrected }
{
    CorrectedResult {
        epsilon: 0.0,
        df_num_corrected: 0.0,
        df_den_corrected: 0.0,
        f_statistic: 0.0,
    }
}

// Nothing but zeros.
pub fn no_corrections() -> Corrections
    ensures { result ≡ no_corrections }
{
    Corrections {
        sphericity: SphericityResult { w: 0.0, df: 0.0 },
        greenhouse_geisser: no_corrected(),
        huynh_feldt: no_corrected(),
    }
}
