// How many readings each cell has. All codes beyond a factor's levels have the same columns: they count as one level more.
ghost use Rattle.std.specs.Prelude.{◌≡◌, ◌≤◌, length};
ghost use Rattle.base.specs.Limits.{most_readings};
ghost use Rattle.twoway_normal.specs.Counted.{cell_of, counts_of};

use crate::levels::Levels;

// A level more for each factor.
pub const MOST_COUNTS: usize = (base::MOST_LEVELS + 1) * (base::MOST_LEVELS + 1);

// The number of a reading's cell.
pub fn cell_of(levels: Levels, u: u32, v: u32) -> usize
    ensures { result ≡ cell_of levels.a levels.b u v }
{
    let Levels { a, b } = levels;
    (u as usize).min(a) * (b + 1) + (v as usize).min(b)
}

// The tally of twoway_checks is a function of its own: it has fewer places and wider counts, and takes no code beyond the levels. One function for both,
// over a closure and a const length, would have to say of which codes the closure's answer lies within the places: of all here, of those below the
// levels there.
#[tactic(auto, using(std::proofs::lemmas::Slice::Zip::zip_turn, std::proofs::lemmas::Slice::Zip::zip_end, base::proofs::Loops::step, base::proofs::Loops::ends, crate::proofs::Coded::place_below, crate::proofs::Tallies::no_count, crate::proofs::Tallies::one_more_lem), unfolding(crate::specs::Counted::counts_of))]
pub fn count_cells(factor_a: &[u32], factor_b: &[u32], levels: Levels) -> [u32; MOST_COUNTS]
    requires { (length factor_b.now ≡ length factor_a.now) × (length factor_a.now ≤ most_readings) }
    ensures { result ≡ counts_of factor_a.now factor_b.now levels.a levels.b }
{
    let mut counts = [0u32; MOST_COUNTS];
    for (u, v) in factor_a.iter().zip(factor_b) {
        counts[cell_of(levels, *u, *v)] += 1;
    }
    counts
}
