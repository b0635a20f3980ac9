// The sums of squares of the effects, from the coefficients and the inverse of X'X.
ghost use Rattle.std.specs.Prelude.{◌≡◌, ◌+◌, ◌*◌, ◌≤◌, ◌<◌, length, take};
ghost use Rattle.base.specs.Limits.{most_cells, scratch_places};
ghost use Rattle.base.specs.Lists.{part};
ghost use Rattle.lent.specs.Wiping.{zeros};
ghost use Rattle.twoway_type3.specs.Inner.{IsSolved, inverse_from, block_from, most_columns};
ghost use Rattle.twoway_type3.specs.Wald.{wald_row, wald_sum, wald_ss};
ghost use Rattle.twoway_type3.specs.Answer.{effects_from};

use crate::half::left_half;
use results::{Effects, Skips};
use twoway_normal::Levels;

// Where the inverse of X'X lies, behind the system; and where an effect's block lies, behind both.
const INVERSE: usize = twoway_normal::SYSTEM;

const BLOCK: usize = INVERSE + base::MOST_CELLS * (2 * base::MOST_CELLS);

// The sum of squares of an effect, and how many columns the inversion of its block skipped.
#[derive(Clone, Copy)]
pub struct Effect {
    pub ss: f64,
    pub skipped: usize,
}

// How many columns the solver skipped, and how many the inverse of X'X.
#[derive(Clone, Copy)]
pub struct Solved {
    pub solver: usize,
    pub inverse: usize,
}

// Where the columns of an effect lie among the p columns of the design: n of them, from s on.
#[derive(Clone, Copy)]
struct Columns {
    p: usize,
    s: usize,
    n: usize,
    ghost some: { 0 < n },
    ghost most: { n ≤ most_columns },
    ghost within: { s + n ≤ p },
    ghost few: { p ≤ most_cells },
}

impl Columns {
    // The products of coefficient s + i with row i of the inverted block, added to ss.
    #[tactic(auto, using(base::proofs::Loops::step, base::proofs::Loops::ends, base::proofs::Bounds::row_end), unfolding(crate::specs::Wald::wald_row))]
    fn wald_row(self, beta: &[f64], cov: &[f64], i: usize, ss: f64) -> f64
        requires { (i < self.n) × (self.p * (self.p + 1) ≤ length beta.now) × (self.n * (2 * self.n) ≤ length cov.now) }
        ensures { result ≡ wald_row self.p self.s self.n beta.now cov.now i ss }
    {
        let Columns { p, s, n } = self;
        let f = beta[(s + i) * (p + 1) + p];
        let mut t = ss;
        // By number: the coefficients lie p + 1 places apart, and `skip`, `step_by` and `zip` over both lists are no plainer.
        for j in 0..n {
            t += f * cov[i * (2 * n) + n + j] * beta[(s + j) * (p + 1) + p];
        }
        t
    }

    #[tactic(auto, using(base::proofs::Loops::step, base::proofs::Loops::ends), unfolding(crate::specs::Wald::wald_sum))]
    fn wald_sum(self, beta: &[f64], cov: &[f64]) -> f64
        requires { (self.p * (self.p + 1) ≤ length beta.now) × (self.n * (2 * self.n) ≤ length cov.now) }
        ensures { result ≡ wald_sum self.p self.s self.n beta.now cov.now }
    {
        let mut ss = 0.0;
        // By number: `wald_row` asks for it, and a fold over the numbers is no plainer.
        for i in 0..self.n {
            ss = self.wald_row(beta, cov, i, ss);
        }
        float::canon(ss)
    }

    // The sum of squares of the effect.
    #[tactic(auto, using(crate::proofs::Chains::wald_lent, twoway_normal::proofs::Sizes::system_most, crate::proofs::Sizes::block_start, crate::proofs::Sizes::block_rows, crate::proofs::Sizes::block_most, crate::proofs::Sizes::inverse_most))]
    fn wald_ss(self, work: &mut [f64; base::SCRATCH_PLACES]) -> Effect
        ensures { (result ≡ wald_ss self.p self.s self.n (part 0 (self.p * (self.p + 1)) work.old) (part inverse_from (self.p * (2 * self.p)) work.old)) × (take block_from work.new ≡ take block_from work.old) }
    {
        let Columns { p, s, n } = self;
        left_half(work, BLOCK, n, INVERSE + (s * (2 * p) + (p + s)), 2 * p);
        let end = BLOCK + n * (2 * n);
        let e = matrix_linear::matrix_inverse(&mut work[BLOCK..end], n);
        // A slice of it: the borrow checker does not cover a part with a start of an array that is lent already.
        let all: &[f64] = work;
        Effect {
            ss: self.wald_sum(&all[0..p * (p + 1)], &all[BLOCK..end]),
            skipped: e.skipped,
        }
    }
}

// The system in the first places is solved: the coefficients come to its last column, and behind it the inverse of X'X, on the right of its rows.
#[tactic(auto, using(crate::proofs::Chains::solve_lent, crate::proofs::Sizes::solve_room, crate::proofs::Sizes::system_rows))]
fn solve(levels: Levels, work: &mut [f64; base::SCRATCH_PLACES]) -> Solved
    ensures { IsSolved levels.a levels.b work.old work.new result }
{
    let p = levels.a * levels.b;
    let z = p * (p + 1);
    let end = INVERSE + p * (2 * p);
    left_half(work, INVERSE, p, 0, p + 1);
    let solved = matrix_linear::solve_linear_system(&mut work[0..z], p);
    let inverted = matrix_linear::matrix_inverse(&mut work[INVERSE..end], p);
    Solved {
        solver: solved.skipped,
        inverse: inverted.skipped,
    }
}

// The effects, from the system in the first places. The memory is left wiped.
#[tactic(auto, using(lent::proofs::Wipes::wiped_short, crate::proofs::Chains::effects_chain, twoway_normal::proofs::Sizes::cells_most, twoway_normal::proofs::Sizes::columns))]
pub fn all_effects(levels: Levels, work: &mut [f64; base::SCRATCH_PLACES]) -> Effects
    ensures { (work.new ≡ zeros scratch_places) × (result ≡ effects_from (part 0 (levels.a * levels.b * (levels.a * levels.b + 1)) work.old) levels.a levels.b) }
{
    let solved = solve(levels, work);
    let Levels { a, b } = levels;
    let p = a * b;
    let (of_a, of_b) = (a - 1, b - 1);
    let ss_a = Columns { p, s: 1, n: of_a }.wald_ss(work);
    let ss_b = Columns { p, s: a, n: of_b }.wald_ss(work);
    let ss_ab = Columns {
        p,
        s: a + of_b,
        n: of_a * of_b,
    }
    .wald_ss(work);
    lent::wipe(work);
    Effects {
        ss_a: ss_a.ss,
        ss_b: ss_b.ss,
        ss_ab: ss_ab.ss,
        skips: Skips {
            solver: solved.solver,
            inverse: solved.inverse,
            block_a: ss_a.skipped,
            block_b: ss_b.skipped,
            block_ab: ss_ab.skipped,
        },
    }
}
