// Two-way analysis of variance with Type III sums of squares.
// Readings and the codes of both factors are three slices, as document 01 has them: refusal 5 tells their lengths.
#![tactic(auto)]

mod squares;
mod table;

ghost use Rattle.std.specs.Prelude.{◌≡◌};
ghost use Rattle.twoway.specs.Results.{refused_result};
ghost use Rattle.twoway.specs.Anova.{two_way_anova};

use base::Refusal;
use results::{AnovaTableRow, Skips};

// The answer of a two-way analysis. Cell (i, j) stands at place i * levels_b + j; unused places are zero. A coefficient that was skipped
// is 0 because the matrix gave out: `skips` counts them, and is all zeros in a balanced design.
// Document 01 fixes this record, with the refusal beside zeros; the theorems `refused_none` and `skips_told` speak of both.
// Memory is fixed and nothing is on a heap: the arrays have their counts beside them.
#[derive(Clone, Copy)]
pub struct TwoWayAnovaResult {
    pub refusal: Refusal,
    pub factor_a: AnovaTableRow,
    pub factor_b: AnovaTableRow,
    pub interaction: AnovaTableRow,
    pub residual: AnovaTableRow,
    pub total: AnovaTableRow,
    pub levels_a: usize,
    pub levels_b: usize,
    pub n: usize,
    pub grand_mean: f64,
    pub cell_means: [f64; base::MOST_CELLS],
    pub marginal_means_a: [f64; base::MOST_LEVELS],
    pub marginal_means_b: [f64; base::MOST_LEVELS],
    pub skips: Skips,
}

// The answer that carries a refusal alone. A private function with one caller is enough: no `From<Refusal>`.
#[tactic(auto, unfolding(crate::specs::Results::refused_result, twoway_means::specs::Table::no_cells, twoway_means::specs::Table::no_levels))]
fn refused(refusal: Refusal) -> TwoWayAnovaResult
    ensures { result ≡ refused_result refusal }
{
    TwoWayAnovaResult {
        refusal,
        factor_a: results::no_row(),
        factor_b: results::no_row(),
        interaction: results::no_row(),
        residual: results::no_row(),
        total: results::no_row(),
        levels_a: 0,
        levels_b: 0,
        n: 0,
        grand_mean: 0.0,
        cell_means: [0.0; base::MOST_CELLS],
        marginal_means_a: [0.0; base::MOST_LEVELS],
        marginal_means_b: [0.0; base::MOST_LEVELS],
        skips: results::no_skips(),
    }
}

// The analysis of readings with a code of each factor. The first 6,400 places of the scratch are worked in, and left as +0.0;
// a refused call does not touch it.
pub fn two_way_anova(
    values: &[f64],
    factor_a: &[u32],
    factor_b: &[u32],
    scratch: &mut [f64],
) -> TwoWayAnovaResult
    ensures { (scratch.new, result) ≡ two_way_anova values.now factor_a.now factor_b.now scratch.old }
{
    let d = match twoway_cells::organize_two_way_data(values, factor_a, factor_b, scratch) {
        Ok(d) => d,
        Err(r) => return refused(r),
    };
    let a = d.levels_a;
    let b = d.levels_b;
    let k = a * b;
    let t = twoway_means::cell_table(&scratch[..d.n_total], &d.cell_n[..k], a, b);
    let e = squares::squares(
        values,
        factor_a,
        factor_b,
        &t.cell_means[..k],
        &d.cell_n[..k],
        a,
        b,
        scratch,
    );
    table::answer(values, a, b, t, e)
}
