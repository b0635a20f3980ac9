// A square block of the lent memory is copied to the left half of rows for an inversion.
ghost use Rattle.std.specs.Prelude.{◌≡◌, ℕ, ◌+◌, ◌*◌, ◌≤◌, ◌<◌, length};
ghost use Rattle.base.specs.Limits.{most_cells, scratch_places};
ghost use Rattle.base.specs.Lists.{within};
ghost use Rattle.twoway_type3.specs.Matrices.{left_half};
ghost use Rattle.twoway_type3.specs.Inner.{half_row};

// The n places from q on come to the n places from p on, and n zeros behind them.
fn half_row(work: &mut [f64; base::SCRATCH_PLACES], p: usize, q: usize, n: usize)
    requires { (q + n ≤ p) × (p + 2 * n ≤ scratch_places) }
    ensures { work.new ≡ half_row n q p work.old }
{
    work.copy_within(q..q + n, p);
    work[p + n..p + 2 * n].fill(0.0);
}

// The block of n rows of n places, from `from` on and w apart, goes to the rows from `to` on, which lie behind it.
#[tactic(auto, using(base::proofs::Bounds::row_end, base::proofs::Loops::step, base::proofs::Loops::ends, crate::proofs::Halves::half_walk))]
pub fn left_half(work: &mut [f64; base::SCRATCH_PLACES], to: usize, n: usize, from: usize, w: usize)
    requires { (0 < n) × (n ≤ most_cells) × (to + n * (2 * n) ≤ scratch_places) × ((i : ℕ) → i < n → from + (i * w + n) ≤ to) }
    ensures { work.new ≡ within to (n * (2 * n)) (λ _. left_half n from w work.old) work.old }
{
    // By number: row i goes to row i of the same memory, which no two iterators hold.
    for i in 0..n {
        half_row(work, to + i * (2 * n), from + i * w, n);
    }
}
