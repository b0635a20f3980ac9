// The checks one by one.
ghost use Rattle.std.specs.Prelude.{◌≡◌, ◌<◌, ◌≤◌, ◌*◌, take};
ghost use Rattle.base.specs.Limits.{most_levels};
ghost use Rattle.base.specs.Refusals.{verdict};
ghost use Rattle.twoway_checks.specs.Checks.{largest, shape_refusal, levels_refusal, empty_refusal, cells_refusal};

use base::Refusal;

// A fold from 0, which is what no codes have: `max()` would hand back an Option.
// The largest code. All of them are looked at, so that the compiler can take several at a time.
#[tactic(auto, using(crate::proofs::Codes::largest_fold))]
pub fn largest_of(codes: &[u32]) -> u32
    ensures { result ≡ largest codes.now }
{
    codes.iter().fold(0, |most, code| most.max(*code))
}

// Too little scratch, too many readings, factors of another length, no readings, a NaN.
#[tactic(auto, unfolding(crate::specs::Checks::shape_refusal))]
pub fn shape_refusal(
    values: &[f64],
    factor_a: &[u32],
    factor_b: &[u32],
    lent: usize,
) -> Result<(), Refusal>
    ensures { result ≡ verdict (shape_refusal values.now factor_a.now factor_b.now lent) }
{
    if lent < base::SCRATCH_PLACES {
        return Err(Refusal::new(12, base::SCRATCH_PLACES as u64, lent as u64));
    }
    if base::MOST_READINGS < values.len() {
        return Err(Refusal::new(11, 2, values.len() as u64));
    }
    if factor_a.len() != values.len() || factor_b.len() != values.len() {
        return Err(Refusal::new(5, factor_a.len() as u64, factor_b.len() as u64));
    }
    if values.is_empty() {
        return Err(Refusal::new(1, 0, 0));
    }
    if stats::has_nan(values) {
        return Err(Refusal::new(4, 0, 0));
    }
    Ok(())
}

// Too many levels, or too few. They have 64 bits: the code 4294967295 is 4294967296 levels.
#[tactic(auto, unfolding(crate::specs::Checks::levels_refusal))]
pub fn levels_refusal(a: u64, b: u64) -> Result<(), Refusal>
    ensures { result ≡ verdict (levels_refusal a b) }
{
    if (base::MOST_LEVELS as u64) < a {
        return Err(Refusal::new(11, 5, a));
    }
    if (base::MOST_LEVELS as u64) < b {
        return Err(Refusal::new(11, 6, b));
    }
    if a < 2 {
        return Err(Refusal::new(6, 1, a));
    }
    if b < 2 {
        return Err(Refusal::new(6, 2, b));
    }
    Ok(())
}

// The first of these cells that has no reading.
fn empty_refusal(counts: &[usize], levels_b: usize) -> Result<(), Refusal>
    requires { 0 < levels_b }
    ensures { result ≡ verdict (empty_refusal levels_b 0 counts.now) }
{
    match counts.iter().position(|n| *n == 0) {
        Some(c) => Err(Refusal::new(7, (c / levels_b) as u64, (c % levels_b) as u64)),
        None => Ok(()),
    }
}

// An empty cell, or no reading beyond one a cell.
#[tactic(auto, using(base::proofs::Order::ends_there, base::proofs::Order::asks_next, base::proofs::Bounds::product_le), unfolding(crate::specs::Checks::cells_refusal))]
pub fn cells_refusal(
    counts: &[usize; base::MOST_CELLS],
    levels_a: usize,
    levels_b: usize,
    n: usize,
) -> Result<(), Refusal>
    requires { (levels_a ≤ most_levels) × (0 < levels_b) × (levels_b ≤ most_levels) }
    ensures { result ≡ verdict (cells_refusal levels_a levels_b n (take (levels_a * levels_b) counts.now)) }
{
    let cells = levels_a * levels_b;
    empty_refusal(&counts[..cells], levels_b)?;
    if n == cells {
        return Err(Refusal::new(2, (cells + 1) as u64, n as u64));
    }
    Ok(())
}
