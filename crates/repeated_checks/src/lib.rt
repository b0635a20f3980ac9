// Repeated measures: the checks at the door, in document 01's order.
// Readings and sizes are two slices, as document 01 has them: refusal 10 tells their sums.
#![tactic(auto)]

ghost use Rattle.std.specs.Prelude.{◌≡◌};
ghost use Rattle.base.specs.Lists.{cut};
ghost use Rattle.base.specs.Refusals.{verdict};
ghost use Rattle.repeated_checks.specs.Inner.{sought_fault};
ghost use Rattle.repeated_checks.specs.Checks.{conditions, design_refusal, subjects_refusal, repeated_refusal};

use base::{Check, Refusal};

// The readings of the first subject, of which there may be none.
fn conditions(sizes: &[u32]) -> u64
    ensures { result ≡ conditions sizes.now }
{
    sizes.first().copied().unwrap_or(0) as u64
}

// n subjects and k conditions: too many conditions, too few subjects, too few conditions.
#[tactic(auto, using(std::proofs::lemmas::Bool::Decides::nat_tests), unfolding(crate::specs::Checks::design_refusal))]
fn design_refusal(n: u64, k: u64) -> Result<(), Refusal>
    ensures { result ≡ verdict (design_refusal n k) }
{
    if (base::MOST_CONDITIONS as u64) < k {
        return Err(Refusal::new(11, 4, k));
    }
    if n < 2 {
        return Err(Refusal::new(2, 2, n));
    }
    if k < 2 {
        return Err(Refusal::new(8, k, 0));
    }
    Ok(())
}

// The check of a subject: not k readings, or a NaN, for which it looks only where `nans` says that there may be one.
#[derive(Clone, Copy)]
struct SubjectCheck {
    k: u64,
    nans: bool,
}

impl Check for SubjectCheck {
    ghost fault = { λ check. sought_fault check.k check.nans };

    fn ask(&self, number: u64, row: &[f64]) -> Result<(), Refusal> {
        if row.len() as u64 != self.k {
            return Err(Refusal::new(9, number, row.len() as u64));
        }
        if self.nans && stats::has_nan(row) {
            return Err(Refusal::new(4, number, 0));
        }
        Ok(())
    }
}

// The first subject that has a fault. Where no reading is a NaN, the rows are not searched for one.
fn subjects_refusal(readings: &[f64], sizes: &[u32], k: u64) -> Result<(), Refusal>
    ensures { result ≡ verdict (subjects_refusal k 1 (cut sizes.now readings.now)) }
{
    let nans = stats::has_nan(readings);
    base::first_fault(readings, sizes, &SubjectCheck { k, nans })
}

// The checks of repeated measures, in document 01's order. The rows lie one after another, subject by subject, and `sizes` are their lengths.
#[tactic(auto, using(base::proofs::Order::ends_there, base::proofs::Order::asks_next), unfolding(crate::specs::Checks::repeated_refusal))]
pub fn repeated_refusal(readings: &[f64], sizes: &[u32]) -> Result<(), Refusal>
    ensures { result ≡ verdict (repeated_refusal readings.now sizes.now) }
{
    base::sizes_refusal(readings.len(), sizes, base::MOST_SUBJECTS as u32, 3)?;
    let k = conditions(sizes);
    design_refusal(sizes.len() as u64, k)?;
    subjects_refusal(readings, sizes, k)
}
