// The readings of a two-way design sorted into the cells of two factors.
// Readings and the codes of both factors are three slices, as document 01 has them: refusal 5 tells their lengths.
#![tactic(auto)]

mod sort;

ghost use Rattle.std.specs.Prelude.{◌≡◌};
ghost use Rattle.twoway_cells.specs.Organized.{organize_two_way_data};
ghost use Rattle.twoway_cells.specs.Starts.{starts_of};

use base::Refusal;
use twoway_checks::TwoWayData;

// A place for the start of each cell, and one for where all end.
pub const STARTS: usize = base::MOST_CELLS + 1;

// Where each cell begins, if the cells lie one after another and have as many readings as `counts` says; behind the last, where all end. Nothing but zeros
// where there are over 36 cells, or over 512 readings in all, as its clause says.
#[tactic(auto, using(base::proofs::Cuts::total_split, base::proofs::Sizes::total_next, base::proofs::Sizes::total_whole, crate::proofs::Starts::sums_start, crate::proofs::Starts::sums_turn, crate::proofs::Starts::sums_end, crate::proofs::Starts::too_many, crate::proofs::Starts::too_long, crate::proofs::Starts::told), unfolding(crate::specs::Starts::no_starts, base::specs::Lists::total))]
pub fn starts_of(counts: &[usize]) -> [usize; STARTS]
    ensures { result ≡ starts_of counts.now }
{
    let none = [0usize; STARTS];
    if base::MOST_CELLS < counts.len() {
        return none;
    }
    let mut starts = none;
    let mut at = 0;
    for (c, n) in counts.iter().enumerate() {
        if base::MOST_READINGS - at < *n {
            return none;
        }
        starts[c] = at;
        at += n;
    }
    starts[counts.len()] = at;
    starts
}

// The readings cell by cell in the first places of the scratch, by A, then B, and in input order within a cell; and how many each cell has.
#[tactic(auto, using(crate::proofs::Answers::organized_refused, crate::proofs::Answers::organized_narrow, crate::proofs::Answers::organized_tallied, crate::proofs::Answers::organized_length, crate::proofs::Answers::organized_passed))]
pub fn organize_two_way_data(
    values: &[f64],
    factor_a: &[u32],
    factor_b: &[u32],
    scratch: &mut [f64],
) -> Result<TwoWayData, Refusal>
    ensures { (scratch.new, result) ≡ organize_two_way_data values.now factor_a.now factor_b.now scratch.old }
{
    let d = twoway_checks::check_two_way_data(values, factor_a, factor_b, scratch.len())?;
    sort::lay(
        values,
        factor_a,
        factor_b,
        d.levels_b as u32,
        &d.cell_n,
        scratch,
    );
    Ok(d)
}
