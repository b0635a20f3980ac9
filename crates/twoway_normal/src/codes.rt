// The row of the design matrix that the readings of a cell have, by effect coding.
// Loops go by number: places are set from their numbers, where `iter_mut().enumerate()` would be no plainer, and one loop calls a step by its number.
ghost use Rattle.std.specs.Prelude.{◌≡◌, ◌-◌, ◌≤◌, ◌<◌};
ghost use Rattle.base.specs.Limits.{most_levels};
ghost use Rattle.twoway_normal.specs.Coding.{effect_code, codes_from, products_of, products, design_row};

use crate::levels::Levels;

// A column for each cell that there may be, and the reading.
const ROW: usize = base::MOST_CELLS + 1;

// Column k of a factor: 1, or -1 at the last level, or 0.
#[tactic(auto, using(base::proofs::Bounds::then_of, base::proofs::Bounds::else_of), unfolding(crate::specs::Coding::effect_code))]
fn effect_code(levels: usize, u: usize, k: usize) -> f64
    requires { 2 ≤ levels }
    ensures { result ≡ effect_code levels u k }
{
    if u == k {
        1.0
    } else if u == levels - 1 {
        -1.0
    } else {
        0.0
    }
}

// All columns of a factor, from place p on.
#[tactic(auto, using(base::proofs::Loops::step, base::proofs::Loops::ends), unfolding(crate::specs::Coding::codes_from))]
fn codes_from(x: &mut [f64; ROW], p: usize, levels: usize, u: usize)
    requires { (2 ≤ levels) × (levels ≤ most_levels) × (p ≤ most_levels) }
    ensures { x.new ≡ codes_from p levels u x.old }
{
    for k in 0..levels - 1 {
        x[p + k] = effect_code(levels, u, k);
    }
}

// The products of one column of A and the columns of B.
#[tactic(auto, using(base::proofs::Bounds::product_le, base::proofs::Loops::step, base::proofs::Loops::ends), unfolding(crate::specs::Coding::products_of))]
fn products_of(x: &mut [f64; ROW], levels: Levels, ka: usize)
    requires { (ka < levels.a - 1) }
    ensures { x.new ≡ products_of levels.a levels.b ka x.old }
{
    let Levels { a, b } = levels;
    // By number: one row is read and written.
    for kb in 0..b - 1 {
        x[a + (b - 1) + (ka * (b - 1) + kb)] = x[1 + ka] * x[a + kb];
    }
}

#[tactic(auto, using(base::proofs::Loops::step, base::proofs::Loops::ends), unfolding(crate::specs::Coding::products))]
fn products(x: &mut [f64; ROW], levels: Levels)
    ensures { x.new ≡ products levels.a levels.b x.old }
{
    for ka in 0..levels.a - 1 {
        products_of(x, levels, ka);
    }
}

// The row of the codes u and v, and a value behind it.
#[tactic(auto, using(base::proofs::Bounds::product_le, crate::proofs::Built::row_built), unfolding(lent::specs::Wiping::zeros))]
pub fn design_row(levels: Levels, u: usize, v: usize, y: f64) -> [f64; ROW]
    ensures { result ≡ design_row levels.a levels.b u v y }
{
    let Levels { a, b } = levels;
    let mut x = [0.0; ROW];
    x[0] = 1.0;
    codes_from(&mut x, 1, a, u);
    codes_from(&mut x, a, b, v);
    products(&mut x, levels);
    x[a * b] = y;
    x
}
