// Places of flat matrices: whether there is room for them, the sums of products and the steps on rows that the matrix crates are made of.
// Rows that are written stay a slice with their sizes beside it: a struct would have each clause say, beside what the rows become, that the sizes stay.
// Rows that are only read are slices and numbers in the clauses of the public functions, and the private ones hand them on.
// Loops go by number, as the loops of the definitions do: the two are read side by side, and a turn of one is a turn of the other.
#![tactic(auto)]

ghost use Rattle.std.specs.Prelude.{◌≡◌, length};
ghost use Rattle.matrix_places.specs.Places.{refuses, lacks, dot_in, short, less_row_in, over_row_in};

// The most contrasts: one less than the most conditions.
pub const MOST_CONTRASTS: usize = base::MOST_CONDITIONS - 1;

// The places of a square matrix of so many rows.
pub const SQUARE: usize = MOST_CONTRASTS * MOST_CONTRASTS;

// A pivot below it is too small to divide by.
pub const TINY: f64 = 1e-14;

// A norm that is not above it is too small to divide by, and a determinant's pivot that is below it is none.
pub const TINIER: f64 = 1e-15;

// Are p rows of k places too few, or too many, or too many for memory of this length? More of either than there may be conditions are always too many.
#[tactic(auto, using(std::proofs::lemmas::Bool::Decides::nat_tests), unfolding(crate::specs::Places::refuses))]
pub fn refuses(most: usize, p: usize, k: usize, len: usize) -> bool
    ensures { result ≡ refuses most p k len }
{
    p == 0
        || most < p
        || base::MOST_CONDITIONS < p
        || k == 0
        || base::MOST_CONDITIONS < k
        || len < p * k
}

// Does x lack one of n places, from p on and s apart? More places than there may be conditions, and places further apart, count as lacking.
#[tactic(auto, using(std::proofs::lemmas::Bool::Decides::nat_tests, base::proofs::Bounds::product_le), unfolding(crate::specs::Places::lacks))]
fn lacks(x: &[f64], p: usize, s: usize, n: usize) -> bool
    ensures { result ≡ lacks p s n (length x.now) }
{
    base::MOST_CONDITIONS < n
        || base::MOST_CONDITIONS < s
        || x.len() < p
        || x.len() + s <= p + n * s
}

// The sum from z of n products: places of x, from p on and s apart, times places of y, from q on and t apart.
// Where one of the places is lacking: z.
#[tactic(auto, using(base::proofs::Loops::step, base::proofs::Loops::ends, crate::proofs::Room::first_lacking, crate::proofs::Room::second_lacking, crate::proofs::Room::none_lacking, crate::proofs::Room::not_lacked), unfolding(crate::specs::Places::dot))]
pub fn dot(x: &[f64], p: usize, s: usize, y: &[f64], q: usize, t: usize, n: usize, z: f64) -> f64
    ensures { result ≡ dot_in z x.now p s y.now q t n }
{
    if lacks(x, p, s, n) || lacks(y, q, t, n) {
        return float::canon(z);
    }
    let mut sum = z;
    for m in 0..n {
        sum += x[p + m * s] * y[q + m * t];
    }
    float::canon(sum)
}

// Is m too short for the row of w places that begins at p?
#[tactic(auto, using(std::proofs::lemmas::Bool::Decides::nat_tests), unfolding(crate::specs::Places::short))]
fn short(m: &[f64], p: usize, w: usize) -> bool
    ensures { result ≡ short p w (length m.now) }
{
    m.len() < w || m.len() - w < p
}

// From the row that begins at q, in the columns from i on, f times the row that begins at p is taken away. Both have w places.
// Where one of them does not end within m, nothing is changed.
#[tactic(auto, using(base::proofs::Loops::ends, crate::proofs::Rows::ends_within, crate::proofs::Rows::less_first, crate::proofs::Rows::less_second, crate::proofs::Rows::less_done), unfolding(crate::specs::Places::less_row))]
pub fn less_row(m: &mut [f64], p: usize, q: usize, f: f64, i: usize, w: usize)
    ensures { m.new ≡ less_row_in p q f i w m.old }
{
    if short(m, p, w) || short(m, q, w) {
        return;
    }
    for j in i..w {
        m[q + j] = float::canon(m[q + j] - f * m[p + j]);
    }
}

// The row of w places that begins at p is divided by d.
// Where it does not end within m, nothing is changed.
#[tactic(auto, using(base::proofs::Loops::ends, crate::proofs::Rows::ends_within, crate::proofs::Rows::over_refused, crate::proofs::Rows::over_done), unfolding(crate::specs::Places::over_row))]
pub fn over_row(m: &mut [f64], p: usize, d: f64, w: usize)
    ensures { m.new ≡ over_row_in p d w m.old }
{
    if short(m, p, w) {
        return;
    }
    for j in 0..w {
        m[p + j] = float::canon(m[p + j] / d);
    }
}
