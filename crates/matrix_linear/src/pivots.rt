// Pivots, and the rows below one.
// Loops go by number, as the loops of the definitions do: the two are read side by side, and a turn of one is a turn of the other.
ghost use Rattle.std.specs.Prelude.{◌≡◌, ◌+◌, ◌*◌, ◌≤◌, ◌<◌, length};
ghost use Rattle.matrix_linear.specs.Rows.{better, pivot_row, pivoted, clear_row, clear_below};

use super::place::abs_at;
use super::rows::swap_rows;

// The better of row best and row r for a pivot: r only if it is strictly larger.
#[tactic(auto, using(crate::proofs::Candidates::strictly_larger, crate::proofs::Candidates::not_larger))]
pub fn better(m: &[f64], w: usize, col: usize, r: usize, best: usize) -> usize
    requires { (col < w) × ((r * w + w ≤ length m.now) × (best * w + w ≤ length m.now)) }
    ensures { result ≡ better m.now w col r best }
{
    if abs_at(m, best * w + col) < abs_at(m, r * w + col) {
        r
    } else {
        best
    }
}

// The row, from col on, whose absolute value in the column is largest: the first of such.
#[tactic(auto, using(base::proofs::Loops::step, base::proofs::Loops::ends, crate::proofs::Candidates::better_lt, base::proofs::Bounds::row_end), unfolding(crate::specs::Rows::pivot_row))]
pub fn pivot_row(m: &[f64], n: usize, w: usize, col: usize) -> usize
    requires { (col < n) × ((n ≤ w) × (n * w ≤ length m.now)) }
    ensures { (result ≡ pivot_row n w col m.now) × (result < n) }
{
    let mut best = col;
    for r in col + 1..n {
        best = better(m, w, col, r, best);
    }
    best
}

// The pivot's row comes to row col.
#[tactic(auto, using(crate::proofs::Columns::pivot_came, base::proofs::Bounds::row_end))]
pub fn pivot(m: &mut [f64], n: usize, w: usize, col: usize)
    requires { (col < n) × ((n ≤ w) × (n * w ≤ length m.old)) }
    ensures { m.new ≡ pivoted n w col m.old }
{
    let p = pivot_row(m, n, w, col);
    swap_rows(m, w, col, p);
}

// Row r less the multiple of row col that clears the column.
#[tactic(auto, using(matrix_places::proofs::Rows::less_room), unfolding(crate::specs::Rows::clear_row))]
pub fn clear_row(m: &mut [f64], w: usize, col: usize, r: usize)
    requires { (col < w) × ((col * w + w ≤ length m.old) × (r * w + w ≤ length m.old)) }
    ensures { m.new ≡ clear_row w col r m.old }
{
    let f = m[r * w + col] / m[col * w + col];
    matrix_places::less_row(m, col * w, r * w, f, col, w);
}

// The column is cleared below row col.
#[tactic(auto, using(base::proofs::Loops::step, base::proofs::Loops::ends), unfolding(crate::specs::Rows::clear_below))]
pub fn clear_below(m: &mut [f64], n: usize, w: usize, col: usize)
    requires { (col < n) × ((n ≤ w) × (n * w ≤ length m.old)) }
    ensures { m.new ≡ clear_below n w col m.old }
{
    for r in col + 1..n {
        clear_row(m, w, col, r);
    }
}
