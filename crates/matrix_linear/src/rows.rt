// Rows that change places. They lie w places apart; where one begins is worked out before the loop.
// Loops go by number, as the loops of the definitions do: the two are read side by side, and a turn of one is a turn of the other.
ghost use Rattle.std.specs.Prelude.{◌≡◌, ◌+◌, ◌*◌, ◌≤◌, length};
ghost use Rattle.matrix_linear.specs.Rows.{swap_rows};

// Row a and row b change places. A row that is its own pivot stays.
#[tactic(auto, using(base::proofs::Loops::step, base::proofs::Loops::ends, crate::proofs::Columns::swap_own, crate::proofs::Swaps::swap_step), unfolding(crate::specs::Rows::swap_rows))]
pub fn swap_rows(m: &mut [f64], w: usize, a: usize, b: usize)
    requires { (a * w + w ≤ length m.old) × (b * w + w ≤ length m.old) }
    ensures { m.new ≡ swap_rows w a b m.old }
{
    if a == b {
        return;
    }
    let p = a * w;
    let q = b * w;
    for j in 0..w {
        m.swap(p + j, q + j);
    }
}
