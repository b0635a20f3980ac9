// The cells of a two-way design told in numbers: their means, the means of each factor's levels, and the squared distances within the cells.
// Where places are set from their numbers, loops go by number: `iter_mut().enumerate()` would have the number too, and is no plainer.
// The numbers of levels are two parameters: `Levels` (twoway_normal) are two to six of each, and these functions, whose public one takes any two numbers,
// also work out fewer.
#![tactic(auto)]

ghost use Rattle.std.specs.Prelude.{◌≡◌, ℕ, ◌*◌, ◌≤◌, ◌<◌, List, Float, length, take, leb};
ghost use mathlib.Core.List.{foldl};
ghost use Rattle.base.specs.Limits.{most_cells, most_levels, most_readings};
ghost use Rattle.base.specs.Inner.{Line};
ghost use Rattle.base.specs.Lists.{cut, total};
ghost use Rattle.stats.specs.Sums.{add_by, sq_dist};
ghost use Rattle.twoway_means.specs.Table.{cell_at, tally, tally_line, margins, cell_means, ss_error, no_table, table_fits, table_of, cell_table};
ghost use Rattle.twoway_means.specs.Inner.{Laid, Fitting};

use std::marker::Model;

// A sum, and how many were added, counted in floats as the source counts.
#[derive(Clone, Copy)]
pub struct Tally {
    pub sum: f64,
    pub count: f64,
}

// Unused places are zero.
#[derive(Clone, Copy)]
pub struct CellTable {
    pub cell_means: [f64; base::MOST_CELLS],
    pub marginal_means_a: [f64; base::MOST_LEVELS],
    pub marginal_means_b: [f64; base::MOST_LEVELS],
    pub ss_error: f64,
}

// Whether these counts come to no more than n. No sum is formed that could wrap.
fn counts_within(counts: &[usize], n: usize) -> bool
    ensures { result ≡ leb (total counts.now) n }
{
    counts
        .iter()
        .try_fold(n, |left, count| left.checked_sub(*count))
        .is_some()
}

fn tally_cell(t: Tally, cell: &[f64]) -> Tally
    ensures { result ≡ foldl tally t cell.now }
{
    cell.iter().fold(
        t,
        |t, y| Tally {
            sum: t.sum + y,
            count: t.count + 1.0,
        },
    )
}

// The squared distances of one cell's readings from its mean, added to t.
fn add_squares(t: f64, cell: &[f64], mean: f64) -> f64
    ensures { result ≡ foldl (add_by (sq_dist mean)) t cell.now }
{
    cell.iter().fold(t, |t, y| {
        let d = y - mean;
        t + d * d
    })
}

// Cells whose readings lie one after another, as many in each as `counts` says. A clause sees the cells.
#[derive(Drop)]
struct Cells<'a> {
    readings: &'a [f64],
    counts: &'a [usize],
    starts: [usize; twoway_cells::STARTS],
}

impl<'a> Model for Cells<'a> {
    ghost Value = { List (List Float) };

    ghost view = { λ c. cut c.counts.now c.readings.now };

    ghost invariant = { λ c. Laid c.counts.now c.starts c.readings.now };
}

impl<'a> Cells<'a> {
    fn new(readings: &'a [f64], counts: &'a [usize]) -> Cells<'a>
        requires { (length counts.now ≤ most_cells) × (length readings.now ≤ most_readings) × (total counts.now ≤ length readings.now) }
        ensures { result ≡ cut counts.now readings.now }
    {
        Cells {
            readings,
            counts,
            starts: twoway_cells::starts_of(counts),
        }
    }

    // The readings of cell c.
    #[tactic(auto, using(crate::proofs::Places::few, crate::proofs::Places::begins, crate::proofs::Places::stays, crate::proofs::Places::is_cell, crate::proofs::Places::short))]
    fn cell(&self, c: usize) -> &'a [f64]
        requires { c < length self.now }
        ensures { (result.now ≡ cell_at self.now c) × (length result.now ≤ most_readings) }
    {
        &self.readings[self.starts[c]..self.starts[c + 1]]
    }

    // n cells, the first of them s, each d further on.
    #[tactic(auto, using(base::proofs::Loops::step, base::proofs::Loops::ends, crate::proofs::Places::not_many), unfolding(crate::specs::Table::tally_line))]
    fn line(&self, s: usize, d: usize, n: usize) -> Tally
        requires { Line (length self.now) s d n }
        ensures { result ≡ tally_line self.now s d n }
    {
        // A look at a field tells the proof that there are at most 36 cells.
        let _ = &self.counts;
        let mut t = Tally {
            sum: 0.0,
            count: 0.0,
        };
        // By number: the cells lie d apart, and `step_by` would ask that d is not 0.
        for q in 0..n {
            t = tally_cell(t, self.cell(s + q * d));
        }
        t
    }

    // Not one function with `mean_margins` of twoway_balanced: that one adds means, this one adds readings and counts them.
    // The mean of all readings at each of m levels: the levels' first cells lie e apart, and a level's n cells d apart.
    #[tactic(auto, using(base::proofs::Bounds::row_end, base::proofs::Loops::step, base::proofs::Loops::ends), unfolding(crate::specs::Table::margins, base::specs::Lists::listed, crate::specs::Table::no_levels))]
    fn margins(&self, m: usize, e: usize, d: usize, n: usize) -> [f64; base::MOST_LEVELS]
        requires { (m ≤ most_levels) × ((m * e ≤ most_cells) × ((i : ℕ) → i < m → Line (length self.now) (i * e) d n)) }
        ensures { result ≡ margins self.now m e d n }
    {
        let mut out = [0.0; base::MOST_LEVELS];
        for i in 0..m {
            let t = self.line(i * e, d, n);
            out[i] = float::canon(t.sum / t.count);
        }
        out
    }

    #[tactic(auto, using(float::proofs::Counts::small_count, base::proofs::Loops::step, base::proofs::Loops::ends, crate::proofs::Places::as_many), unfolding(crate::specs::Table::cell_means, base::specs::Lists::listed, crate::specs::Table::no_cells))]
    fn means(&self) -> [f64; base::MOST_CELLS]
        ensures { result ≡ cell_means self.now (length self.now) }
    {
        let mut out = [0.0; base::MOST_CELLS];
        for c in 0..self.counts.len() {
            let here = self.cell(c);
            out[c] = float::canon(stats::sum(here) / (here.len() as f64));
        }
        out
    }

    #[tactic(auto, using(crate::proofs::Places::as_many, base::proofs::Loops::step, base::proofs::Loops::ends), unfolding(crate::specs::Table::ss_error))]
    fn ss_error(&self, means: &[f64; base::MOST_CELLS]) -> f64
        ensures { result ≡ ss_error self.now means.now (length self.now) }
    {
        let mut t = 0.0;
        for (c, mean) in means[..self.counts.len()].iter().enumerate() {
            t = add_squares(t, self.cell(c), *mean);
        }
        float::canon(t)
    }
}

// Zeros, which the clause of `cell_table` wants where the design does not fit. A private function is enough: a `Default` would be one more public promise.
#[tactic(auto, unfolding(crate::specs::Table::no_cells, crate::specs::Table::no_levels))]
fn no_table() -> CellTable
    ensures { result ≡ no_table }
{
    CellTable {
        cell_means: [0.0; base::MOST_CELLS],
        marginal_means_a: [0.0; base::MOST_LEVELS],
        marginal_means_b: [0.0; base::MOST_LEVELS],
        ss_error: 0.0,
    }
}

// At most 6 rows and 6 columns, at most 512 readings, a count for each cell, and enough readings for the counts.
#[tactic(auto, unfolding(crate::specs::Table::table_fits))]
fn table_fits(readings: &[f64], counts: &[usize], a: usize, b: usize) -> bool
    ensures { result ≡ table_fits counts.now readings.now a b }
{
    a <= base::MOST_LEVELS
        && b <= base::MOST_LEVELS
        && readings.len() <= base::MOST_READINGS
        && a * b <= counts.len()
        && counts_within(&counts[..a * b], readings.len())
}

fn table(readings: &[f64], counts: &[usize], a: usize, b: usize) -> CellTable
    requires { Fitting counts.now readings.now a b }
    ensures { result ≡ table_of (cut (take (a * b) counts.now) readings.now) a b }
{
    let cells = Cells::new(readings, &counts[..a * b]);
    let means = cells.means();
    CellTable {
        cell_means: means,
        marginal_means_a: cells.margins(a, b, 1, b),
        marginal_means_b: cells.margins(b, 1, b, a),
        ss_error: cells.ss_error(&means),
    }
}

// The table of a rows and b columns of cells, whose readings lie one after another, by row, as many in each as `counts` says.
// Nothing but zeros where it does not fit.
#[tactic(auto, using(crate::proofs::Places::fitting), unfolding(crate::specs::Table::cell_table))]
pub fn cell_table(readings: &[f64], counts: &[usize], a: usize, b: usize) -> CellTable
    ensures { result ≡ cell_table counts.now readings.now a b }
{
    if table_fits(readings, counts, a, b) {
        table(readings, counts, a, b)
    } else {
        no_table()
    }
}
