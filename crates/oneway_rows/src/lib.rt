// One-way data: the row that each group is worked into, and the rows of all groups.
// Readings and sizes are two slices, as document 01 has them: refusal 10 tells their sums.
// Where places are set from other places, the place is set by its number: of what `iter_mut().zip(..)` writes a proof knows the length alone.
#![tactic(auto)]

pub mod sound;

ghost use Rattle.std.specs.Prelude.{◌≡◌};
ghost use Rattle.oneway_rows.specs.Rows.{empty_row, row_answer, rows_put, refused_stats, validate_anova_groups};

use base::Refusal;

// What the analyses need of a group: its size, its mean, and the squared distances of its readings from the mean, added up.
#[derive(Clone, Copy)]
pub struct Row {
    pub size: u32,
    pub mean: f64,
    pub sq_dev: f64,
}

// The rows of all groups, and empty rows behind them; or a refusal.
// It stands beside the rows and not in a `Result`: the edit `validate_anova_groups--refused-with-a-group` changes the count beside it.
// Memory is fixed and nothing is on a heap: the arrays have their counts beside them.
#[derive(Clone, Copy)]
pub struct GroupStats {
    pub refusal: Refusal,
    pub n_groups: usize,
    pub rows: [Row; base::MOST_GROUPS],
}

impl Row {
    // The row of no group.
    pub fn empty() -> Row
        ensures { result ≡ empty_row }
    {
        Row {
            size: 0,
            mean: 0.0,
            sq_dev: 0.0,
        }
    }

    // The row of a group of 1 to 512 readings; the empty row where `mean` refuses.
    #[tactic(auto, using(base::proofs::Order::refused_answer, base::proofs::Order::was_passed, base::proofs::Order::was_refused, stats::proofs::Passed::mean_passed, crate::proofs::Laid::mean_tells, crate::proofs::Laid::row_made), unfolding(crate::specs::Rows::row_answer))]
    pub fn of(group: &[f64]) -> Row
        ensures { result ≡ row_answer group.now }
    {
        let m = stats::mean(group);
        match m.refusal.check() {
            Ok(()) => {
                let mean = m.value;
                let d = stats::sq_dev(group, mean);
                Row {
                    size: group.len() as u32,
                    mean,
                    sq_dev: d,
                }
            }
            Err(_) => Row::empty(),
        }
    }
}

// Puts the row of each group into its place, as `Row::of` hands it out, as far as there are places.
// Where there are fewer readings than the sizes say, the last groups are shorter.
// The walk from group to group stands in `base::first_fault` and in oneway's `put_means` too. One for all would take an `FnMut`,
// and each caller would have to say what that does to the memory that the closure holds.
// One for the two that put rows would be public with a `requires`, as it takes a closure: no public function has one.
#[tactic(auto, using(std::proofs::lemmas::List::take_min, std::proofs::lemmas::List::drop_min, crate::proofs::Laid::laid_start, crate::proofs::Laid::laid_turn, crate::proofs::Laid::laid_done), unfolding(crate::specs::Rows::rows_put))]
pub fn put_rows(out: &mut [Row], readings: &[f64], sizes: &[u32])
    ensures { out.new ≡ rows_put readings.now sizes.now out.old }
{
    let k = out.len().min(sizes.len());
    let mut rest = readings;
    for (g, size) in sizes[..k].iter().enumerate() {
        let (group, behind) = rest.split_at((*size as usize).min(rest.len()));
        out[g] = Row::of(group);
        rest = behind;
    }
}

// No `impl From<Refusal>`: one private function with one caller is enough.
#[tactic(auto, unfolding(crate::specs::Rows::empty_rows))]
fn refused(refusal: Refusal) -> GroupStats
    ensures { result ≡ refused_stats refusal }
{
    GroupStats {
        refusal,
        n_groups: 0,
        rows: [Row::empty(); base::MOST_GROUPS],
    }
}

// The groups' rows, where the one-way checks are passed.
#[tactic(auto, using(base::proofs::Cuts::length_cut, base::proofs::Order::passed_answer, base::proofs::Order::refused_answer, base::proofs::Order::was_passed, base::proofs::Order::was_refused, crate::proofs::Laid::rows_there, crate::proofs::Parts::parted), unfolding(crate::specs::Rows::validate_anova_groups, crate::specs::Rows::empty_rows))]
pub fn validate_anova_groups(readings: &[f64], sizes: &[u32]) -> GroupStats
    ensures { result ≡ validate_anova_groups readings.now sizes.now }
{
    match oneway_checks::one_way_refusal(readings, sizes) {
        Ok(()) => {
            let mut rows = [Row::empty(); base::MOST_GROUPS];
            put_rows(&mut rows, readings, sizes);
            GroupStats {
                refusal: Refusal::none(),
                n_groups: sizes.len(),
                rows,
            }
        }
        Err(refusal) => refused(refusal),
    }
}
