// Gram and Schmidt on the columns of a matrix of n rows of n places.
// Loops go by number, as the loops of the definitions do: the two are read side by side, and a turn of one is a turn of the other.
// A column's places lie a row apart: no slice copies them.
ghost use Rattle.std.specs.Prelude.{◌≡◌, ◌*◌, ◌≤◌, ◌<◌, length};
ghost use Rattle.base.specs.Limits.{scratch_places};
ghost use Rattle.matrix_places.specs.Places.{most_contrasts};
ghost use Rattle.matrix_eigen.specs.Qr.{wiped, column_of, less_column, project, projections, put_column, normalize, qr_column, qr_columns};

use matrix_places::MOST_CONTRASTS;

// The first k places become 0. Memory and k are what the definition `wiped k m` takes.
#[tactic(auto, using(crate::proofs::Calls::wiped_part))]
pub fn wipe(m: &mut [f64], k: usize)
    requires { (k ≤ length m.old) × (k ≤ scratch_places) }
    ensures { m.new ≡ wiped k m.old }
{
    lent::wipe(&mut m[..k]);
}

// Column j of a, to the first n places of v.
#[tactic(auto, using(base::proofs::Loops::step, base::proofs::Loops::ends), unfolding(crate::specs::Qr::column_of))]
pub fn take_column(a: &[f64], n: usize, j: usize, v: &mut [f64; MOST_CONTRASTS])
    requires { (j < n) × ((n ≤ most_contrasts) × (n * n ≤ length a.now)) }
    ensures { v.new ≡ column_of n a.now j v.old }
{
    for k in 0..n {
        v[k] = a[k * n + j];
    }
}

// v less f times column i of q.
#[tactic(auto, using(base::proofs::Loops::step, base::proofs::Loops::ends), unfolding(crate::specs::Qr::less_column))]
pub fn less_column(q: &[f64], n: usize, i: usize, f: f64, v: &mut [f64; MOST_CONTRASTS])
    requires { (i < n) × ((n ≤ most_contrasts) × (n * n ≤ length q.now)) }
    ensures { v.new ≡ less_column n q.now i f v.old }
{
    for k in 0..n {
        v[k] -= f * q[k * n + i];
    }
}

// The projection onto column i of q goes to r[i][j] and is taken from v. It is worked out from column j of a, not from v.
#[tactic(auto, using(matrix_places::proofs::Room::dot_room, crate::proofs::Steps::column_projected, base::proofs::Bounds::row_end))]
pub fn project(
    a: &[f64],
    q: &[f64],
    n: usize,
    j: usize,
    i: usize,
    v: &mut [f64; MOST_CONTRASTS],
    r: &mut [f64],
)
    requires { (i < n) × ((j < n) × ((n ≤ most_contrasts) × ((n * n ≤ length a.now) × ((n * n ≤ length q.now) × (n * n ≤ length r.old))))) }
    ensures { (v.new, r.new) ≡ project n a.now q.now j i (v.old, r.old) }
{
    let f = matrix_places::dot(q, i, n, a, j, n, n, -0.0);
    r[i * n + j] = f;
    less_column(q, n, i, f, v);
}

// The projections onto all columns before column j.
#[tactic(auto, using(base::proofs::Loops::step, base::proofs::Loops::ends), unfolding(crate::specs::Qr::projections))]
pub fn projections(
    a: &[f64],
    q: &[f64],
    n: usize,
    j: usize,
    v: &mut [f64; MOST_CONTRASTS],
    r: &mut [f64],
)
    requires { (j < n) × ((n ≤ most_contrasts) × ((n * n ≤ length a.now) × ((n * n ≤ length q.now) × (n * n ≤ length r.old)))) }
    ensures { (v.new, r.new) ≡ projections n a.now q.now j (v.old, r.old) }
{
    for i in 0..j {
        project(a, q, n, j, i, v, r);
    }
}

// v over d becomes column j of q.
#[tactic(auto, using(base::proofs::Loops::step, base::proofs::Loops::ends), unfolding(crate::specs::Qr::put_column))]
pub fn put_column(v: &[f64; MOST_CONTRASTS], n: usize, j: usize, d: f64, q: &mut [f64])
    requires { (j < n) × ((n ≤ most_contrasts) × (n * n ≤ length q.old)) }
    ensures { q.new ≡ put_column n v.now j d q.old }
{
    for k in 0..n {
        q[k * n + j] = v[k] / d;
    }
}

// The norm of v goes to r[j][j], and unless it is too small or a NaN v over it to column j of q.
#[tactic(auto, using(matrix_places::proofs::Room::dot_room, crate::proofs::Steps::column_put, crate::proofs::Steps::column_left, base::proofs::Bounds::row_end))]
pub fn normalize(v: &[f64; MOST_CONTRASTS], n: usize, j: usize, q: &mut [f64], r: &mut [f64])
    requires { (j < n) × ((n ≤ most_contrasts) × ((n * n ≤ length q.old) × (n * n ≤ length r.old))) }
    ensures { (q.new, r.new) ≡ normalize n j v.now (q.old, r.old) }
{
    let norm = root::sqrt(matrix_places::dot(v, 0, 1, v, 0, 1, n, -0.0));
    r[j * n + j] = norm;
    if norm > matrix_places::TINIER {
        put_column(v, n, j, norm, q);
    }
}

// Column j of both.
pub fn qr_column(a: &[f64], n: usize, j: usize, q: &mut [f64], r: &mut [f64])
    requires { (j < n) × ((n ≤ most_contrasts) × ((n * n ≤ length a.now) × ((n * n ≤ length q.old) × (n * n ≤ length r.old)))) }
    ensures { (q.new, r.new) ≡ qr_column n a.now j (q.old, r.old) }
{
    let mut v = [0.0; MOST_CONTRASTS];
    take_column(a, n, j, &mut v);
    projections(a, q, n, j, &mut v, r);
    normalize(&v, n, j, q, r);
}

// All columns, where q and r hold zeros.
#[tactic(auto, using(base::proofs::Loops::step, base::proofs::Loops::ends), unfolding(crate::specs::Qr::qr_columns))]
pub fn qr_columns(a: &[f64], n: usize, q: &mut [f64], r: &mut [f64])
    requires { (n ≤ most_contrasts) × ((n * n ≤ length a.now) × ((n * n ≤ length q.old) × (n * n ≤ length r.old))) }
    ensures { (q.new, r.new) ≡ qr_columns n a.now (q.old, r.old) }
{
    for j in 0..n {
        qr_column(a, n, j, q, r);
    }
}
