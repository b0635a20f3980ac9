// Whether rows that a caller holds are sound, so that their readings can be found: the sheet's check 13.
ghost use Rattle.std.specs.Prelude.{◌≡◌, ◌≤◌, ◌||◌, length, ltb};
ghost use Rattle.std.specs.List.{list_any, sum_by};
ghost use Rattle.base.specs.Refusals.{verdict};
ghost use Rattle.base.specs.Limits.{most_groups, most_readings};
ghost use Rattle.oneway_rows.specs.Soundness.{outside, sound_refusal};
ghost use Rattle.oneway_rows.specs.Inner.{size_of, size_outside};

use crate::Row;
use base::Refusal;

fn outside(low: usize, high: usize, n: usize) -> bool
    ensures { result ≡ outside low high n }
{
    !(low..=high).contains(&n)
}

fn any_outside(rows: &[Row]) -> bool
    ensures { result ≡ list_any size_outside rows.now }
{
    rows.iter().any(|row| outside(
        base::FEWEST_READINGS,
        base::MOST_READINGS,
        row.size as usize,
    ))
}

// A size outside, or a sum of more than 512. The sizes have 32 bits, so 64 cannot wrap: other sums of sizes, of sound rows, need not be so wide.
fn unsound(rows: &[Row]) -> bool
    requires { length rows.now ≤ most_groups }
    ensures { result ≡ (list_any size_outside rows.now || ltb most_readings (sum_by size_of rows.now)) }
{
    any_outside(rows)
        || (base::MOST_READINGS as u64) < rows.iter().map(|row| row.size as u64).sum::<u64>()
}

// The check of the first k rows. Rows and their number are two parameters, which its clause names.
#[tactic(auto, using(crate::proofs::Counted::unsound_rows), unfolding(crate::specs::Soundness::sound_refusal))]
pub fn rows_refusal(rows: [Row; base::MOST_GROUPS], k: usize) -> Result<(), Refusal>
    ensures { result ≡ verdict (sound_refusal k rows) }
{
    if outside(base::FEWEST_GROUPS, base::MOST_GROUPS, k) || unsound(&rows[..k]) {
        return Err(Refusal::new(13, 0, 0));
    }
    Ok(())
}
