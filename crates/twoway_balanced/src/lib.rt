// The sums of squares of a balanced two-way design: as many readings in each cell, so that the cells' means tell all.
// Where the places that are read lie apart, loops go by number: `step_by` would ask that the step is not 0.
// Where places are set from their numbers, loops go by number: `iter_mut().enumerate()` would have the number too, and is no plainer.
// The numbers of levels are two parameters: `Levels` (twoway_normal) are two to six of each, and these functions, whose public one takes any two numbers,
// also work out fewer.
#![tactic(auto)]

ghost use Rattle.std.specs.Prelude.{◌≡◌, ℕ, ◌+◌, ◌*◌, ◌≤◌, ◌<◌, length};
ghost use Rattle.base.specs.Limits.{most_cells, most_levels};
ghost use Rattle.base.specs.Inner.{Line};
ghost use Rattle.twoway_balanced.specs.Squares.{other_count, mean_line, mean_margins, ab_row, ss_ab, effects_of, balanced_ss};
ghost use Rattle.twoway_balanced.specs.Inner.{Fitting};

use results::Effects;

// The first count that differs from the first of them; the first itself where none does, 0 where there is none.
// No Option: the definition and the edits `other_count--..` say what stands for none.
#[tactic(auto, unfolding(crate::specs::Squares::other_count, crate::specs::Squares::unlike))]
pub fn other_count(counts: &[usize]) -> usize
    ensures { result ≡ other_count counts.now }
{
    let Some(first) = counts.first() else {
        return 0;
    };
    *counts.iter().find(|c| *c != first).unwrap_or(first)
}

// n means, the first of them s, each d further on, added up from 0.0.
#[tactic(auto, using(base::proofs::Loops::step, base::proofs::Loops::ends), unfolding(crate::specs::Squares::mean_line))]
fn mean_line(means: &[f64], s: usize, d: usize, n: usize) -> f64
    requires { Line (length means.now) s d n }
    ensures { result ≡ mean_line means.now s d n }
{
    let mut t = 0.0;
    for q in 0..n {
        t += means[s + q * d];
    }
    t
}

// Not one function with `Cells::margins` of twoway_means: that one adds readings and counts them, this one adds means.
// The mean of the n cells' means at each of m levels: the levels' first cells lie e apart, and a level's cells d apart.
#[tactic(auto, using(float::proofs::Counts::small_count, base::proofs::Bounds::row_end, base::proofs::Loops::step, base::proofs::Loops::ends), unfolding(crate::specs::Squares::mean_margins))]
fn mean_margins(means: &[f64], m: usize, e: usize, d: usize, n: usize) -> [f64; base::MOST_LEVELS]
    requires { (m ≤ most_levels) × (n ≤ most_levels) × (m * e ≤ most_cells) × ((i : ℕ) → i < m → Line (length means.now) (i * e) d n) }
    ensures { result ≡ mean_margins means.now m e d n }
{
    let mut out = [0.0; base::MOST_LEVELS];
    for i in 0..m {
        out[i] = mean_line(means, i * e, d, n) / (n as f64);
    }
    out
}

// What the cells of one row, the first of them s, add to the interaction: the definition `ab_row` takes s and b too.
#[tactic(auto, using(crate::proofs::Lines::among_row, crate::proofs::Lines::row_at, crate::proofs::Lines::row_long, std::proofs::lemmas::Slice::Zip::zip_turn, std::proofs::lemmas::Slice::Zip::zip_end, base::proofs::Loops::step, base::proofs::Loops::ends), unfolding(crate::specs::Squares::ab_row))]
fn ab_row(
    t: f64,
    means: &[f64],
    mean_a: f64,
    means_b: &[f64; base::MOST_LEVELS],
    grand_mean: f64,
    r: f64,
    s: usize,
    b: usize,
) -> f64
    requires { (b ≤ most_levels) × (s + b ≤ length means.now) }
    ensures { result ≡ ab_row means.now mean_a means_b.now grand_mean r s b t }
{
    let mut u = t;
    for (mean, mean_b) in means[s..s + b].iter().zip(means_b) {
        let effect = mean - mean_a - mean_b + grand_mean;
        u += r * (effect * effect);
    }
    u
}

#[tactic(auto, using(base::proofs::Loops::step, base::proofs::Loops::ends), unfolding(crate::specs::Squares::ss_ab))]
fn ss_ab(
    means: &[f64],
    means_a: &[f64; base::MOST_LEVELS],
    means_b: &[f64; base::MOST_LEVELS],
    grand_mean: f64,
    r: f64,
    a: usize,
    b: usize,
) -> f64
    requires { (a ≤ most_levels) × (b ≤ most_levels) × (a * b ≤ length means.now) }
    ensures { result ≡ ss_ab means.now means_a.now means_b.now grand_mean r a b }
{
    let mut t = 0.0;
    for (i, mean_a) in means_a[..a].iter().enumerate() {
        t = ab_row(t, means, *mean_a, means_b, grand_mean, r, i * b, b);
    }
    t
}

#[tactic(auto, using(base::proofs::Places::row_line, base::proofs::Places::column_line, crate::proofs::Lines::few_cells, crate::proofs::Lines::taken, float::proofs::Counts::small_count, base::proofs::Bounds::product_le))]
fn effects_of(means: &[f64], r: usize, a: usize, b: usize) -> Effects
    requires { Fitting means.now r a b }
    ensures { result ≡ effects_of means.now r a b }
{
    let means_a = mean_margins(means, a, b, 1, b);
    let means_b = mean_margins(means, b, 1, b, a);
    let grand_mean = stats::sum(means) / ((a * b) as f64);
    let ss_a = ((r * b) as f64) * stats::sq_dev(&means_a[..a], grand_mean);
    let ss_b = ((r * a) as f64) * stats::sq_dev(&means_b[..b], grand_mean);
    let ss_ab = ss_ab(means, &means_a, &means_b, grand_mean, r as f64, a, b);
    Effects {
        ss_a: float::canon(ss_a),
        ss_b: float::canon(ss_b),
        ss_ab: float::canon(ss_ab),
        skips: results::no_skips(),
    }
}

// The effects of A, B and their interaction, from the means of a by b cells of r readings each.
// Zeros, as its clause says, where there are too many levels, too many readings a cell, or not a mean for each cell.
#[tactic(auto, unfolding(crate::specs::Squares::balanced_ss))]
pub fn balanced_ss(means: &[f64], r: usize, a: usize, b: usize) -> Effects
    ensures { result ≡ balanced_ss means.now r a b }
{
    if base::MOST_LEVELS < a
        || base::MOST_LEVELS < b
        || base::MOST_READINGS < r
        || means.len() != a * b
    {
        results::no_effects()
    } else {
        effects_of(means, r, a, b)
    }
}
