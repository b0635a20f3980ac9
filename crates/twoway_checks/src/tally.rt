// How many readings each cell has.
ghost use Rattle.std.specs.Prelude.{◌≡◌};
ghost use Rattle.twoway_checks.specs.Cells.{cell_number};
ghost use Rattle.twoway_checks.specs.Inner.{Coded, keys, tally};

// The number of a reading's cell, where factor B has `levels_b` levels: cells are counted by A, then B. With 32 bits each no product is too large for 64.
pub fn cell_number(a: u32, b: u32, levels_b: u32) -> usize
    ensures { result ≡ cell_number levels_b a b }
{
    (a as usize) * (levels_b as usize) + (b as usize)
}

// Not one function with the counting of twoway_normal, which takes codes beyond the levels.
pub fn count_cells(factor_a: &[u32], factor_b: &[u32], levels_b: u32) -> [usize; base::MOST_CELLS]
    requires { Coded factor_a.now factor_b.now levels_b }
    ensures { result ≡ tally (keys levels_b factor_a.now factor_b.now) }
{
    let mut counts = [0usize; base::MOST_CELLS];
    for (a, b) in factor_a.iter().zip(factor_b) {
        counts[cell_number(*a, *b, levels_b)] += 1;
    }
    counts
}
