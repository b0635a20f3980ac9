// Welch's analysis, which lets the groups' variances differ: each group has a weight.
// Where places are set from other places, the place is set by its number: of what `iter_mut().zip(..)` writes a proof knows the length alone.
ghost use Rattle.std.specs.Prelude.{◌≡◌, ◌≤◌, length};
ghost use Rattle.base.specs.Limits.{most_groups};
ghost use Rattle.base.specs.Lists.{over};
ghost use Rattle.stats.specs.Sums.{sum_by};
ghost use Rattle.oneway.specs.Inner.{Small};
ghost use Rattle.oneway.specs.Welch.{weigh, all_weighed, sum_weights, mean_in, spread_about, rest_of, welch_sums, welch_test, welch_anova};

use crate::summary;
use base::Refusal;
use oneway_rows::Row;
use results::OneWayAnovaResult;

// A row with its weight in place of its squared distances.
#[derive(Clone, Copy)]
pub struct Weighed {
    pub size: u32,
    pub mean: f64,
    pub weight: f64,
}

// The spread of the groups' means about their weighted mean, and the adjustment for unequal variances.
#[derive(Clone, Copy)]
pub struct WelchSums {
    pub spread: f64,
    pub adjustment: f64,
}

#[derive(Clone, Copy)]
pub struct WelchTest {
    pub statistic: f64,
    pub df_between: f64,
    pub df_within: f64,
}

// The weight of a row among k. A variance below 1e-15, of a group that is as good as constant, has the largest weight.
fn weigh(row: &Row, k: u32) -> Weighed
    ensures { result ≡ weigh k row.now }
{
    let variance = row.sq_dev / (base::minus(row.size, 1) as f64);
    let weight = if variance < 1e-15 {
        f64::MAX / (k as f64)
    } else {
        (row.size as f64) / variance
    };
    Weighed {
        size: row.size,
        mean: row.mean,
        weight,
    }
}

// Puts the rows, weighed, into the places of `out`.
#[tactic(auto, using(base::proofs::Fills::fill_starts, base::proofs::Fills::fill_step, base::proofs::Fills::fill_ends, oneway_rows::proofs::Counted::unread))]
fn put_weighed(out: &mut [Weighed], rows: &[Row])
    requires { (length rows.now ≤ length out.old) × (length rows.now ≤ most_groups) }
    ensures { out.new ≡ over (all_weighed rows.now) out.old }
{
    for (g, row) in rows.iter().enumerate() {
        out[g] = weigh(row, rows.len() as u32);
    }
}

fn sum_weights(rows: &[Weighed]) -> f64
    ensures { result ≡ sum_weights rows.now }
{
    float::canon(rows.iter().map(|row| row.weight).sum())
}

fn weighted_sum(rows: &[Weighed]) -> f64
    ensures { result ≡ sum_by mean_in rows.now }
{
    float::canon(rows.iter().map(|row| row.weight * row.mean).sum())
}

fn spread(rows: &[Weighed], mean: f64) -> f64
    ensures { result ≡ sum_by (spread_about mean) rows.now }
{
    float::canon(
        rows.iter()
            .map(|row| {
                let d = row.mean - mean;
                row.weight * (d * d)
            })
            .sum(),
    )
}

fn adjustment(rows: &[Weighed], sum_weights: f64) -> f64
    ensures { result ≡ sum_by (rest_of sum_weights) rows.now }
{
    float::canon(
        rows.iter()
            .map(|row| {
                let d = 1.0 - row.weight / sum_weights;
                d * d / (base::minus(row.size, 1) as f64)
            })
            .sum(),
    )
}

fn welch_sums(rows: &[Weighed]) -> WelchSums
    ensures { result ≡ welch_sums rows.now }
{
    let sum_weights = sum_weights(rows);
    let weighted_grand_mean = weighted_sum(rows) / sum_weights;
    WelchSums {
        spread: spread(rows, weighted_grand_mean),
        adjustment: adjustment(rows, sum_weights),
    }
}

// F and its degrees of freedom, of k groups.
fn welch_test(k: u32, sums: WelchSums) -> WelchTest
    requires { k ≤ most_groups }
    ensures { result ≡ welch_test k sums }
{
    let df_between = base::minus(k, 1) as f64;
    let f_numerator = sums.spread / df_between;
    let k_squared_less_one = base::minus(k * k, 1) as f64;
    let lambda = sums.adjustment * 3.0 / k_squared_less_one;
    let f_stat = f_numerator / (1.0 + 2.0 * lambda * (base::minus(k, 2) as f64) / 3.0);
    let df_within = k_squared_less_one / (3.0 * sums.adjustment);
    WelchTest {
        statistic: float::canon(f_stat),
        df_between,
        df_within: float::canon(df_within),
    }
}

pub fn welch_anova(rows: &[Row]) -> OneWayAnovaResult
    requires { Small rows.now }
    ensures { result ≡ welch_anova rows.now }
{
    let k = rows.len();
    let mut group_sizes = [0u32; base::MOST_GROUPS];
    let mut group_means = [0.0; base::MOST_GROUPS];
    summary::put_columns(&mut group_sizes, &mut group_means, rows);
    let mut weighed = [Weighed {
        size: 0,
        mean: 0.0,
        weight: 0.0,
    }; base::MOST_GROUPS];
    put_weighed(&mut weighed, rows);
    let test = welch_test(k as u32, welch_sums(&weighed[..k]));
    OneWayAnovaResult {
        refusal: Refusal::none(),
        statistic: test.statistic,
        df_between: test.df_between,
        df_within: test.df_within,
        has_ss: false,
        ss_between: 0.0,
        ss_within: 0.0,
        ss_total: 0.0,
        has_ms: false,
        ms_between: 0.0,
        ms_within: 0.0,
        n_groups: k,
        n_total: summary::n_total(rows),
        group_sizes,
        group_means,
        has_grand_mean: false,
        grand_mean: 0.0,
    }
}
