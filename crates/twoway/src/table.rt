// The table of a two-way analysis, once its sums of squares are known.
ghost use Rattle.std.specs.Prelude.{◌≡◌};
ghost use Rattle.twoway.specs.Results.{answer_of};
ghost use Rattle.twoway.specs.Inner.{Small};

use crate::TwoWayAnovaResult;
use base::Refusal;
use results::Effects;
use twoway_means::CellTable;

// The numbers of levels are two parameters, as in the definition `answer_of`.
#[tactic(auto, using(crate::proofs::Counts::less_few, crate::proofs::Counts::some, float::proofs::Counts::small_count, base::proofs::Bounds::product_le), unfolding(crate::specs::Results::answer_of))]
pub fn answer(values: &[f64], a: usize, b: usize, t: CellTable, e: Effects) -> TwoWayAnovaResult
    requires { Small values.now a b }
    ensures { result ≡ answer_of values.now a b t e }
{
    let CellTable {
        cell_means,
        marginal_means_a,
        marginal_means_b,
        ss_error,
    } = t;
    let n = values.len();
    let grand_mean = float::canon(stats::sum(values) / (n as f64));
    let ss_total = stats::sq_dev(values, grand_mean);
    let residual = results::plain_row(ss_error, (n - a * b) as f64);
    let ms_error = residual.ms;
    TwoWayAnovaResult {
        refusal: Refusal::none(),
        factor_a: results::effect_row(e.ss_a, (a - 1) as f64, ms_error),
        factor_b: results::effect_row(e.ss_b, (b - 1) as f64, ms_error),
        interaction: results::effect_row(e.ss_ab, ((a - 1) * (b - 1)) as f64, ms_error),
        residual,
        total: results::plain_row(ss_total, (n - 1) as f64),
        levels_a: a,
        levels_b: b,
        n,
        grand_mean,
        cell_means,
        marginal_means_a,
        marginal_means_b,
        skips: e.skips,
    }
}
