// The checks of two-way data, and the design that they leave known: the levels of both factors, and how many readings each cell has.
// Readings and the codes of both factors are three slices, as document 01 has them: refusal 5 tells their lengths.
#![tactic(auto)]

mod refusals;
mod tally;

ghost use Rattle.std.specs.Prelude.{◌≡◌};
ghost use Rattle.twoway_checks.specs.Data.{checked_data};

use base::Refusal;
pub use tally::cell_number;

// The design of readings that passed the checks. The cell (i, j) stands at place i * levels_b + j of cell_n.
// Memory is fixed and nothing is on a heap: the arrays have their counts beside them.
#[derive(Clone, Copy)]
pub struct TwoWayData {
    pub levels_a: usize,
    pub levels_b: usize,
    pub n_total: usize,
    pub cell_n: [usize; base::MOST_CELLS],
}

// The two-way checks, in document 01's order, and the design of what passes them; `lent` is how many places of scratch the caller lends.
// Nothing is sorted, and no scratch is touched. No cell is counted before both numbers of levels are known to be in range.
#[tactic(auto, using(base::proofs::Judged::ends_call, base::proofs::Judged::asks_further, base::proofs::Judged::last_ends, base::proofs::Judged::last_passed, crate::proofs::Answers::counts_are, crate::proofs::Answers::cells_checked, crate::proofs::Doors::leveled_told, crate::proofs::Doors::coded), unfolding(crate::specs::Data::checked_data, crate::specs::Checks::two_way_refusal))]
pub fn check_two_way_data(
    values: &[f64],
    factor_a: &[u32],
    factor_b: &[u32],
    lent: usize,
) -> Result<TwoWayData, Refusal>
    ensures { result ≡ checked_data values.now factor_a.now factor_b.now lent }
{
    refusals::shape_refusal(values, factor_a, factor_b, lent)?;
    let a = refusals::largest_of(factor_a) as u64 + 1;
    let b = refusals::largest_of(factor_b) as u64 + 1;
    refusals::levels_refusal(a, b)?;
    let levels_a = a as usize;
    let levels_b = b as usize;
    let cell_n = tally::count_cells(factor_a, factor_b, b as u32);
    refusals::cells_refusal(&cell_n, levels_a, levels_b, values.len())?;
    Ok(TwoWayData {
        levels_a,
        levels_b,
        n_total: values.len(),
        cell_n,
    })
}
