// The rows of a product, for matrices that fit.
// Loops go by number, as the loops of the definitions do: the two are read side by side, and a turn of one is a turn of the other.
ghost use Rattle.std.specs.Prelude.{◌≡◌, ◌+◌, ◌*◌, ◌≤◌, ◌<◌, length};
ghost use Rattle.base.specs.Limits.{most_conditions};
ghost use Rattle.matrix_product.specs.Product.{product_row, product};

// Row i of the product: l products to each of its w places.
#[tactic(auto, using(matrix_places::proofs::Room::dot_room, crate::proofs::Steps::product_step, base::proofs::Bounds::row_end, base::proofs::Loops::ends), unfolding(crate::specs::Product::product_row))]
pub fn product_row(
    a: &[f64],
    b: &[f64],
    u: usize,
    t: usize,
    l: usize,
    w: usize,
    i: usize,
    out: &mut [f64],
)
    requires { (0 < l) × ((l ≤ most_conditions) × ((t ≤ most_conditions) × ((i * l + l ≤ length a.now) × ((w * u + l * t < length b.now + t + u) × (i * w + w ≤ length out.old))))) }
    ensures { out.new ≡ product_row a.now b.now u t l w i out.old }
{
    for j in 0..w {
        out[i * w + j] = matrix_places::dot(a, i * l, 1, b, j * u, t, l, 0.0);
    }
}

// All n rows of the product.
#[tactic(auto, using(base::proofs::Loops::step, base::proofs::Loops::ends), unfolding(crate::specs::Product::product))]
pub fn product_rows(
    a: &[f64],
    b: &[f64],
    u: usize,
    t: usize,
    n: usize,
    l: usize,
    w: usize,
    out: &mut [f64],
)
    requires { (0 < l) × ((l ≤ most_conditions) × ((t ≤ most_conditions) × ((n * l ≤ length a.now) × ((w * u + l * t < length b.now + t + u) × (n * w ≤ length out.old))))) }
    ensures { out.new ≡ product a.now b.now u t n l w out.old }
{
    for i in 0..n {
        product_row(a, b, u, t, l, w, i, out);
    }
}
