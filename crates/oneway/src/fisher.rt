// Fisher's analysis, which takes the groups' variances for equal.
ghost use Rattle.std.specs.Prelude.{◌≡◌};
ghost use Rattle.stats.specs.Sums.{sum_by};
ghost use Rattle.oneway.specs.Inner.{Small};
ghost use Rattle.oneway.specs.Fisher.{between_of, within_of, fisher_anova};

use crate::summary;
use base::Refusal;
use oneway_rows::Row;
use results::OneWayAnovaResult;

fn ss_between(rows: &[Row], grand_mean: f64) -> f64
    ensures { result ≡ sum_by (between_of grand_mean) rows.now }
{
    float::canon(
        rows.iter()
            .map(|row| {
                let d = row.mean - grand_mean;
                row.size as f64 * (d * d)
            })
            .sum(),
    )
}

fn ss_within(rows: &[Row]) -> f64
    ensures { result ≡ sum_by within_of rows.now }
{
    float::canon(rows.iter().map(|row| row.sq_dev).sum())
}

// `Small rows` stays a clause: a struct round the slice would be taken apart again in each of the three functions that ask it.
#[tactic(auto, using(oneway_rows::proofs::Counted::sizes_added), unfolding(crate::specs::Fisher::fisher_anova, results::specs::Results::no_sizes, results::specs::Results::no_means))]
pub fn fisher_anova(rows: &[Row], readings: &[f64]) -> OneWayAnovaResult
    requires { Small rows.now }
    ensures { result ≡ fisher_anova rows.now readings.now }
{
    let k = rows.len();
    let n_total = summary::n_total(rows);
    let mut group_sizes = [0u32; base::MOST_GROUPS];
    let mut group_means = [0.0; base::MOST_GROUPS];
    summary::put_columns(&mut group_sizes, &mut group_means, rows);
    let grand_mean = float::canon(stats::sum(readings) / (n_total as f64));
    let ss_between = ss_between(rows, grand_mean);
    let ss_within = ss_within(rows);
    let df_between = base::minus(k as u32, 1) as f64;
    let df_within = base::minus(n_total, k as u32) as f64;
    let ms_between = float::canon(ss_between / df_between);
    let ms_within = float::canon(ss_within / df_within);
    OneWayAnovaResult {
        refusal: Refusal::none(),
        statistic: float::canon(ms_between / ms_within),
        df_between,
        df_within,
        has_ss: true,
        ss_between,
        ss_within,
        ss_total: float::canon(ss_between + ss_within),
        has_ms: true,
        ms_between,
        ms_within,
        n_groups: k,
        n_total,
        group_sizes,
        group_means,
        has_grand_mean: true,
        grand_mean,
    }
}
