// The determinant.
// Loops go by number, as the loops of the definitions do: the two are read side by side, and a turn of one is a turn of the other.
ghost use Rattle.std.specs.Prelude.{◌≡◌, ◌*◌, ◌≤◌, ◌<◌, length};
ghost use Rattle.matrix_linear.specs.Determinant.{turned, det_column, det_columns, diagonal_product, det_end, two_by_two, det_of};

use super::pivots::{clear_below, pivot_row};
use super::place::abs_at;
use super::rows::swap_rows;

// The sign, turned where two different rows change places.
#[tactic(auto, unfolding(crate::specs::Determinant::turned))]
pub fn turned(a: usize, b: usize, s: f64) -> f64
    ensures { result ≡ turned a b s }
{
    if a == b { s } else { -s }
}

// The sign +0.0 says that there is no pivot, as in the definition `det_column`.
// One column: the sign after it, +0.0 where there is no pivot or was none before.
#[tactic(auto, using(crate::proofs::Columns::det_stopped, crate::proofs::Columns::det_pivotless, crate::proofs::Columns::det_swept, base::proofs::Bounds::row_end))]
pub fn det_column(m: &mut [f64], n: usize, col: usize, s: f64) -> f64
    requires { (col < n) × (n * n ≤ length m.old) }
    ensures { (m.new, result) ≡ det_column n col (m.old, s) }
{
    if s == 0.0 {
        return s;
    }
    let p = pivot_row(m, n, n, col);
    if abs_at(m, p * n + col) < matrix_places::TINIER {
        return 0.0;
    }
    swap_rows(m, n, col, p);
    clear_below(m, n, n, col);
    turned(p, col, s)
}

// All columns: the sign, or 0.
#[tactic(auto, using(base::proofs::Loops::step, base::proofs::Loops::ends), unfolding(crate::specs::Determinant::det_columns))]
pub fn det_columns(m: &mut [f64], n: usize) -> f64
    requires { n * n ≤ length m.old }
    ensures { (m.new, result) ≡ det_columns n m.old }
{
    let mut s = 1.0;
    for col in 0..n {
        s = det_column(m, n, col, s);
    }
    s
}

// The product of s and the diagonal.
#[tactic(auto, using(base::proofs::Loops::step, base::proofs::Loops::ends), unfolding(crate::specs::Determinant::diagonal_product))]
pub fn diagonal_product(m: &[f64], n: usize, s: f64) -> f64
    requires { n * n ≤ length m.now }
    ensures { result ≡ diagonal_product n m.now s }
{
    let mut d = s;
    for i in 0..n {
        d *= m[i * n + i];
    }
    d
}

// The determinant of three rows or more.
#[tactic(auto, unfolding(crate::specs::Determinant::det_end))]
pub fn det_long(m: &mut [f64], n: usize) -> f64
    requires { n * n ≤ length m.old }
    ensures { (m.new, result) ≡ det_end n (det_columns n m.old) }
{
    let s = det_columns(m, n);
    if s == 0.0 {
        0.0
    } else {
        diagonal_product(m, n, s)
    }
}

// The determinant of two rows.
#[tactic(auto, unfolding(crate::specs::Determinant::two_by_two))]
pub fn two_by_two(m: &[f64]) -> f64
    requires { 4 ≤ length m.now }
    ensures { result ≡ two_by_two m.now }
{
    m[0] * m[3] - m[1] * m[2]
}

// The determinant, where the rows fit.
#[tactic(auto, unfolding(crate::specs::Determinant::det_of))]
pub fn det_of(m: &mut [f64], n: usize) -> f64
    requires { n * n ≤ length m.old }
    ensures { (m.new, result) ≡ det_of n m.old }
{
    match n {
        0 => 1.0,
        1 => m[0],
        2 => two_by_two(m),
        _ => det_long(m, n),
    }
}
