// Back substitution of a linear system.
// Loops go by number, as the loops of the definitions do: the two are read side by side, and a turn of one is a turn of the other.
ghost use Rattle.std.specs.Prelude.{◌≡◌, ◌+◌, ◌*◌, ◌≤◌, ◌<◌, length};
ghost use Rattle.matrix_linear.specs.System.{back_sum, back_value, backward};

use super::place::skips;

// The right side of row i less the row's products with the values that are known.
#[tactic(auto, using(base::proofs::Loops::step, base::proofs::Loops::ends), unfolding(crate::specs::System::back_sum))]
pub fn back_sum(m: &[f64], n: usize, i: usize) -> f64
    requires { (i < n) × (n * (n + 1) ≤ length m.now) }
    ensures { result ≡ back_sum n i m.now }
{
    let w = n + 1;
    let p = i * w;
    let mut x = m[p + n];
    for j in i + 1..n {
        x -= m[p + j] * m[j * w + n];
    }
    x
}

// x[i]: 0 where the divisor is too small.
#[tactic(auto, unfolding(crate::specs::System::back_value))]
pub fn back_value(m: &[f64], n: usize, i: usize) -> f64
    requires { (i < n) × (n * (n + 1) ≤ length m.now) }
    ensures { result ≡ back_value n i m.now }
{
    let p = i * (n + 1) + i;
    if skips(m, p) {
        0.0
    } else {
        back_sum(m, n, i) / m[p]
    }
}

// Back substitution, from the last row up.
#[tactic(auto, using(base::proofs::Loops::step_back, base::proofs::Loops::ends, base::proofs::Bounds::row_end), unfolding(crate::specs::System::backward, crate::specs::System::back_row))]
pub fn backward(m: &mut [f64], n: usize)
    requires { n * (n + 1) ≤ length m.old }
    ensures { m.new ≡ backward n m.old }
{
    for i in (0..n).rev() {
        m[i * (n + 1) + n] = back_value(m, n, i);
    }
}
