// The door of one-way analysis: its checks in document 01's order, and the view of one group.
// Readings and sizes are two slices, as document 01 has them: refusal 10 tells their sums.
#![tactic(auto)]

ghost use Rattle.std.specs.Prelude.{◌≡◌};
ghost use Rattle.base.specs.Lists.{cut};
ghost use Rattle.base.specs.Refusals.{verdict};
ghost use Rattle.oneway_checks.specs.Inner.{sought_fault};
ghost use Rattle.oneway_checks.specs.Checks.{groups_refusal, one_way_refusal, view_refusal, view_of};

use base::{Check, Refusal};

// The check of a group: fewer than two readings, or a NaN, for which it looks only where `nans` says that there may be one.
// `nans` is there so that no reading is looked at twice where none is a NaN.
#[derive(Clone, Copy)]
struct GroupCheck {
    nans: bool,
}

impl Check for GroupCheck {
    ghost fault = { λ check. sought_fault check.nans };

    fn ask(&self, number: u64, group: &[f64]) -> Result<(), Refusal> {
        let fewest = base::FEWEST_READINGS;
        if group.len() < fewest {
            return Err(Refusal::new(2, fewest as u64, group.len() as u64));
        }
        if self.nans && stats::has_nan(group) {
            return Err(Refusal::new(4, number, 0));
        }
        Ok(())
    }
}

// The first group that has a fault. Where no reading is a NaN, the groups are not searched for one.
fn groups_refusal(readings: &[f64], sizes: &[u32]) -> Result<(), Refusal>
    ensures { result ≡ verdict (groups_refusal 1 (cut sizes.now readings.now)) }
{
    let nans = stats::has_nan(readings);
    base::first_fault(readings, sizes, &GroupCheck { nans })
}

// The one-way checks, in document 01's order.
#[tactic(auto, using(base::proofs::Order::ends_there, base::proofs::Order::asks_next), unfolding(crate::specs::Checks::one_way_refusal))]
pub fn one_way_refusal(readings: &[f64], sizes: &[u32]) -> Result<(), Refusal>
    ensures { result ≡ verdict (one_way_refusal readings.now sizes.now) }
{
    let n = readings.len();
    base::sizes_refusal(n, sizes, base::MOST_GROUPS as u32, 1)?;
    if sizes.len() < base::FEWEST_GROUPS {
        return Err(Refusal::new(3, sizes.len() as u64, 0));
    }
    groups_refusal(readings, sizes)
}

// Why `group` hands back nothing.
#[tactic(auto, using(base::proofs::Order::ends_there, base::proofs::Order::asks_next), unfolding(crate::specs::Checks::view_refusal))]
pub fn group_refusal(readings: &[f64], sizes: &[u32], g: usize) -> Result<(), Refusal>
    ensures { result ≡ verdict (view_refusal readings.now sizes.now g) }
{
    base::sizes_refusal(readings.len(), sizes, base::MOST_GROUPS as u32, 1)?;
    if sizes.len() <= g {
        return Err(Refusal::new(14, g as u64, 0));
    }
    Ok(())
}

// The readings of group g, counted from 0, as a part of the readings that were lent; empty where `group_refusal` refuses.
#[tactic(auto, using(base::proofs::Order::refused_answer, base::proofs::Order::passed_answer, base::proofs::Order::was_passed, base::proofs::Order::was_refused, crate::proofs::Doors::shown, crate::proofs::Walk::view_here), unfolding(crate::specs::Checks::view_of))]
pub fn group<'a>(readings: &'a [f64], sizes: &[u32], g: usize) -> &'a [f64]
    ensures { result.now ≡ view_of readings.now sizes.now g }
{
    match group_refusal(readings, sizes, g) {
        Ok(()) => {
            let at = base::total_of(sizes, g as u32) as usize;
            &readings[at..at + sizes[g] as usize]
        }
        Err(_) => &readings[..0],
    }
}
