// The differences of neighbours: each condition less the next one.
// Loops go by number, as the loops of the definitions do: the two are read side by side, and a turn of one is a turn of the other.
ghost use Rattle.std.specs.Prelude.{◌≡◌, ◌+◌, ◌*◌, ◌-◌, ◌≤◌, ◌<◌, length};
ghost use Rattle.repeated_contrasts.specs.Contrasts.{contrast_row, contrast_rows};

// Row i, where all its places hold 0.
#[tactic(auto, unfolding(crate::specs::Contrasts::contrast_row))]
pub fn contrast_row(k: usize, i: usize, c: &mut [f64])
    requires { (i + 1 < k) × (i * k + k ≤ length c.old) }
    ensures { c.new ≡ contrast_row k i c.old }
{
    let row = i * k;
    c[row + i] = 1.0;
    c[row + (i + 1)] = -1.0;
}

// All rows, of which there is one less than conditions.
#[tactic(auto, using(base::proofs::Loops::step, base::proofs::Loops::ends), unfolding(crate::specs::Contrasts::contrast_rows))]
pub fn contrast_rows(k: usize, c: &mut [f64])
    requires { (2 ≤ k) × ((k - 1) * k ≤ length c.old) }
    ensures { c.new ≡ contrast_rows k c.old }
{
    for i in 0..k - 1 {
        contrast_row(k, i, c);
    }
}
