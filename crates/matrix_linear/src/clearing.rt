// Elimination column by column, for the solver and the inversion: what they do in a column is all in which they differ.
ghost use Rattle.std.specs.Prelude.{◌≡◌, ℕ, ◌+◌, ◌*◌, ◌≤◌, ◌<◌, List, Float, length};
ghost use Rattle.matrix_linear.specs.Rows.{clear_below};
ghost use Rattle.matrix_linear.specs.Inverse.{scaled, clear_others};
ghost use Rattle.matrix_linear.specs.Inner.{counted, all_counted, column_by};

use super::place::skips;
use super::{inverse, pivots};

// What is done in a column whose pivot has come up and is not too small.
pub trait Clearing {
    ghost by: { ℕ → ℕ → ℕ → List Float → List Float };

    fn clear(m: &mut [f64], n: usize, w: usize, col: usize)
        requires { (col < n) × ((n ≤ w) × (n * w ≤ length m.old)) }
        ensures { m.new ≡ by n w col m.old };
}

// The solver clears the column below the pivot.
pub struct Below;

impl Clearing for Below {
    ghost by = { clear_below };

    fn clear(m: &mut [f64], n: usize, w: usize, col: usize) {
        pivots::clear_below(m, n, w, col);
    }
}

// The inversion divides the pivot's row by the pivot, and clears the column in all other rows.
pub struct Others;

impl Clearing for Others {
    ghost by = { λ n w col m. clear_others n w col (scaled w col m) };

    #[tactic(auto, using(matrix_places::proofs::Rows::over_room), unfolding(crate::specs::Inverse::scaled))]
    fn clear(m: &mut [f64], n: usize, w: usize, col: usize) {
        let d = m[col * w + col];
        matrix_places::over_row(m, col * w, d, w);
        inverse::clear_others(m, n, w, col);
    }
}

// One column: rows swap, and unless the pivot is too small the column is cleared. `skipped` columns were skipped before it; the result counts this one too.
fn column<C: Clearing>(m: &mut [f64], n: usize, w: usize, col: usize, skipped: usize) -> usize
    requires { (col < n) × ((n ≤ w) × (n * w ≤ length m.old)) × (skipped ≤ col) }
    ensures { ((m.new, result) ≡ counted (column_by C.by n w) n w col (m.old, skipped)) × (result ≤ skipped + 1) }
{
    pivots::pivot(m, n, w, col);
    if skips(m, col * w + col) {
        return skipped + 1;
    }
    C::clear(m, n, w, col);
    skipped
}

// All columns: how many were skipped.
#[tactic(auto, using(base::proofs::Loops::step, base::proofs::Loops::ends, crate::proofs::Counting::counting_is, base::proofs::Bounds::row_end))]
pub fn columns<C: Clearing>(m: &mut [f64], n: usize, w: usize) -> usize
    requires { (n ≤ w) × (n * w ≤ length m.old) }
    ensures { (m.new, result) ≡ all_counted (column_by C.by n w) n w m.old }
{
    let mut skipped = 0;
    // By number, as the definition's own loop goes.
    for col in 0..n {
        skipped = column::<C>(m, n, w, col, skipped);
    }
    skipped
}
