// Levene's analysis: Fisher's, of the distances of the readings from their groups' means.
// Where places are set from other places, the place is set by its number: of what `iter_mut().zip(..)` writes a proof knows the length alone.
ghost use Rattle.std.specs.Prelude.{◌≡◌, length};
ghost use mathlib.Core.List.{map, flatten};
ghost use Rattle.base.specs.Lists.{over};
ghost use Rattle.oneway_rows.specs.Inner.{Parted};
ghost use Rattle.oneway_rows.specs.Rows.{row_answer};
ghost use Rattle.oneway.specs.Inner.{Given};
ghost use Rattle.oneway.specs.Summary.{size_of};
ghost use Rattle.oneway.specs.Levene.{distance, distances_of, levene_anova};

use crate::fisher;
use oneway_rows::Row;
use results::OneWayAnovaResult;

// The distance of each reading of a group from `mean`, put into its place.
#[tactic(auto, using(base::proofs::Fills::fill_starts, base::proofs::Fills::fill_step, base::proofs::Fills::fill_ends, base::proofs::Runs::over_all))]
fn put_group(out: &mut [f64], group: &[f64], mean: f64)
    requires { length out.old ≡ length group.now }
    ensures { out.new ≡ map (distance mean) group.now }
{
    for (i, x) in group.iter().enumerate() {
        out[i] = float::abs(*x - mean);
    }
}

// The distances lie as the readings do, one group after another, and each group of them has its row put in its place.
#[tactic(auto, using(crate::proofs::Distances::left_turn, crate::proofs::Distances::putting_starts, crate::proofs::Distances::rowing_starts))]
fn put_distances(out: &mut [f64], far: &mut [Row], readings: &[f64], rows: &[Row])
    requires { Given (length out.old) (length far.old) (length readings.now) rows.now }
    ensures out { out.new ≡ flatten (distances_of rows.now readings.now) }
    ensures far { far.new ≡ over (map row_answer (distances_of rows.now readings.now)) far.old }
{
    // By its place: distances are set where the readings lie, and `split_at_mut` beside `split_at` would be no plainer.
    let mut at = 0;
    for (g, row) in rows.iter().enumerate() {
        let end = at + row.size as usize;
        put_group(&mut out[at..end], &readings[at..end], row.mean);
        far[g] = Row::of(&out[at..end]);
        at = end;
    }
}

// Of rows whose sizes passed the checks: it looks at the sizes and means, and not at the squares.
pub fn levene_anova(readings: &[f64], rows: &[Row]) -> OneWayAnovaResult
    requires { Parted (length readings.now) (map size_of rows.now) }
    ensures { result ≡ levene_anova rows.now readings.now }
{
    let n = readings.len();
    let mut places = [0.0; base::MOST_READINGS];
    let mut far = [Row::empty(); base::MOST_GROUPS];
    put_distances(&mut places[..n], &mut far, readings, rows);
    fisher::fisher_anova(&far[..rows.len()], &places[..n])
}
