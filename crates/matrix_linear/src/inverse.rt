// Gauss and Jordan on the rows of a matrix and, beside it, the unit matrix.
// Loops go by number, as the loops of the definitions do: the two are read side by side, and a turn of one is a turn of the other.
ghost use Rattle.std.specs.Prelude.{◌≡◌, ◌+◌, ◌*◌, ◌≤◌, ◌<◌, length};
ghost use Rattle.matrix_linear.specs.Inverse.{zero_right, unit_row, unit, clear_other, clear_others};

// The right half of row i becomes 0.
pub fn zero_right(m: &mut [f64], n: usize, i: usize)
    requires { i * (2 * n) + 2 * n ≤ length m.old }
    ensures { m.new ≡ zero_right n i m.old }
{
    let p = i * (2 * n) + n;
    m[p..p + n].fill(0.0);
}

// The right half of row i becomes that of the unit matrix.
#[tactic(auto, using(crate::proofs::Calls::unit_put))]
pub fn unit_row(m: &mut [f64], n: usize, i: usize)
    requires { (i < n) × (i * (2 * n) + 2 * n ≤ length m.old) }
    ensures { m.new ≡ unit_row n i m.old }
{
    zero_right(m, n, i);
    m[i * (2 * n) + n + i] = 1.0;
}

// The right half becomes the unit matrix.
#[tactic(auto, using(base::proofs::Loops::step, base::proofs::Loops::ends), unfolding(crate::specs::Inverse::unit))]
pub fn unit(m: &mut [f64], n: usize)
    requires { n * (2 * n) ≤ length m.old }
    ensures { m.new ≡ unit n m.old }
{
    for i in 0..n {
        unit_row(m, n, i);
    }
}

// A row r other than col, less m[r][col] times row col.
#[tactic(auto, using(base::proofs::Bounds::else_of, matrix_places::proofs::Rows::less_room), unfolding(crate::specs::Inverse::clear_other))]
pub fn clear_other(m: &mut [f64], w: usize, col: usize, r: usize)
    requires { (col < w) × ((col * w + w ≤ length m.old) × (r * w + w ≤ length m.old)) }
    ensures { m.new ≡ clear_other w col r m.old }
{
    if r == col {
        return;
    }
    let f = m[r * w + col];
    matrix_places::less_row(m, col * w, r * w, f, 0, w);
}

// All rows but col are cleared in the column. The rows before it and those behind it have a loop each: then no loop writes to row col, which it reads,
// and the compiler can take several places at a time.
#[tactic(auto, using(crate::proofs::Columns::own_row, base::proofs::Bounds::row_end, base::proofs::Loops::step, base::proofs::Loops::ends), unfolding(crate::specs::Inverse::clear_others))]
pub fn clear_others(m: &mut [f64], n: usize, w: usize, col: usize)
    requires { (col < n) × ((n ≤ w) × (n * w ≤ length m.old)) }
    ensures { m.new ≡ clear_others n w col m.old }
{
    for r in 0..col {
        clear_other(m, w, col, r);
    }
    for r in col + 1..n {
        clear_other(m, w, col, r);
    }
}
