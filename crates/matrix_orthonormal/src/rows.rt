// Gram and Schmidt on rows, in place.
// Loops go by number, as the loops of the definitions do: the two are read side by side, and a turn of one is a turn of the other.
ghost use Rattle.std.specs.Prelude.{◌≡◌, ◌+◌, ◌*◌, ◌≤◌, length};
ghost use Rattle.base.specs.Limits.{most_conditions};
ghost use Rattle.matrix_orthonormal.specs.Orthonormal.{row_dot, project_row, project_rows, normalize_row, orthonormal_row, orthonormal_rows};

// The sum from -0.0 of the products of row i with row j.
#[tactic(auto, using(matrix_places::proofs::Room::dot_room))]
pub fn row_dot(c: &[f64], k: usize, i: usize, j: usize) -> f64
    requires { (k ≤ most_conditions) × ((i * k + k ≤ length c.now) × (j * k + k ≤ length c.now)) }
    ensures { result ≡ row_dot k i j c.now }
{
    matrix_places::dot(c, i * k, 1, c, j * k, 1, k, -0.0)
}

// Row i less its projection onto row j.
#[tactic(auto, using(matrix_places::proofs::Rows::less_room, crate::proofs::Steps::row_projected))]
pub fn project_row(c: &mut [f64], k: usize, i: usize, j: usize)
    requires { (k ≤ most_conditions) × ((i * k + k ≤ length c.old) × (j * k + k ≤ length c.old)) }
    ensures { c.new ≡ project_row k i j c.old }
{
    let f = row_dot(c, k, i, j);
    matrix_places::less_row(c, j * k, i * k, f, 0, k);
}

// Row i less its projections onto the rows before it, one after another.
#[tactic(auto, using(base::proofs::Loops::step, base::proofs::Loops::ends), unfolding(crate::specs::Orthonormal::project_rows))]
pub fn project_rows(c: &mut [f64], k: usize, i: usize)
    requires { (k ≤ most_conditions) × (i * k + k ≤ length c.old) }
    ensures { c.new ≡ project_rows k i c.old }
{
    for j in 0..i {
        project_row(c, k, i, j);
    }
}

// Row i divided by its norm, unless that is too small or a NaN.
#[tactic(auto, using(matrix_places::proofs::Rows::over_room, crate::proofs::Steps::row_divided, crate::proofs::Steps::row_left))]
pub fn normalize_row(c: &mut [f64], k: usize, i: usize)
    requires { (k ≤ most_conditions) × (i * k + k ≤ length c.old) }
    ensures { c.new ≡ normalize_row k i c.old }
{
    let norm = root::sqrt(row_dot(c, k, i, i));
    if norm > matrix_places::TINIER {
        matrix_places::over_row(c, i * k, norm, k);
    }
}

// Row i, where the rows before it are done.
#[tactic(auto, using(crate::proofs::Steps::row_done))]
pub fn orthonormal_row(c: &mut [f64], k: usize, i: usize)
    requires { (k ≤ most_conditions) × (i * k + k ≤ length c.old) }
    ensures { c.new ≡ orthonormal_row k i c.old }
{
    project_rows(c, k, i);
    normalize_row(c, k, i);
}

// All rows.
#[tactic(auto, using(base::proofs::Loops::step, base::proofs::Loops::ends), unfolding(crate::specs::Orthonormal::orthonormal_rows))]
pub fn orthonormal_rows(c: &mut [f64], p: usize, k: usize)
    requires { (k ≤ most_conditions) × (p * k ≤ length c.old) }
    ensures { c.new ≡ orthonormal_rows p k c.old }
{
    for i in 0..p {
        orthonormal_row(c, k, i);
    }
}
