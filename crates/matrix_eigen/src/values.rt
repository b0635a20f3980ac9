// The rounds of the QR iteration.
// Loops go by number, as the loops of the definitions do: the two are read side by side, and a turn of one is a turn of the other.
// A diagonal's places lie a row and one apart: no slice copies them.
ghost use Rattle.std.specs.Prelude.{◌≡◌, ◌*◌, ◌≤◌, ◌<◌, length};
ghost use Rattle.matrix_places.specs.Places.{most_contrasts};
ghost use Rattle.matrix_eigen.specs.Values.{round, rounds, diagonal};

use super::qr::qr_columns;

const ROUNDS: usize = 100;

// The matrix becomes R Q.
#[tactic(auto, using(crate::proofs::Squares::square_fits, crate::proofs::Steps::round_done, matrix_product::proofs::Fits::product_room, base::proofs::Bounds::product_le), unfolding(crate::specs::Values::zeros))]
pub fn round(m: &mut [f64], n: usize)
    requires { (0 < n) × ((n ≤ most_contrasts) × (n * n ≤ length m.old)) }
    ensures { m.new ≡ round n m.old }
{
    let mut q = [0.0; matrix_places::SQUARE];
    let mut r = [0.0; matrix_places::SQUARE];
    qr_columns(m, n, &mut q, &mut r);
    matrix_product::product(&r, &q, 1, n, n, n, n, m);
}

// A hundred rounds.
#[tactic(auto, using(base::proofs::Loops::step, base::proofs::Loops::ends), unfolding(crate::specs::Values::rounds))]
pub fn rounds(m: &mut [f64], n: usize)
    requires { (0 < n) × ((n ≤ most_contrasts) × (n * n ≤ length m.old)) }
    ensures { m.new ≡ rounds n m.old }
{
    for _round in 0..ROUNDS {
        round(m, n);
    }
}

// The diagonal, to the first n places of values.
#[tactic(auto, using(base::proofs::Loops::step, base::proofs::Loops::ends), unfolding(crate::specs::Values::diagonal))]
pub fn diagonal(m: &[f64], n: usize, values: &mut [f64])
    requires { (n * n ≤ length m.now) × (n ≤ length values.old) }
    ensures { values.new ≡ diagonal n m.now values.old }
{
    for i in 0..n {
        values[i] = m[i * n + i];
    }
}
