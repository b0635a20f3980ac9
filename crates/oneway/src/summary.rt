// What every analysis tells of its groups, from their rows. Zeros stand behind the groups' numbers.
// Where places are set from other places, the place is set by its number: of what `iter_mut().zip(..)` writes a proof knows the length alone.
ghost use Rattle.std.specs.Prelude.{◌≡◌, ◌≤◌, map, length};
ghost use Rattle.std.specs.List.{sum_by};
ghost use Rattle.base.specs.Lists.{cut, over};
ghost use Rattle.oneway_rows.specs.Inner.{Parted};
ghost use Rattle.oneway.specs.Summary.{size_of, row_mean};
ghost use Rattle.oneway.specs.Inner.{Small, mean_row};

use oneway_rows::Row;

// How many readings the rows stand for, in 32 bits as the answer has them: these rows are sound.
pub fn n_total(rows: &[Row]) -> u32
    requires { Small rows.now }
    ensures { result ≡ sum_by size_of rows.now }
{
    rows.iter().map(|row| row.size).sum()
}

// They are two columns, as document 01's record has them.
// Puts the rows' sizes and means into their places. A caller's rows need not come from readings, so that a mean may be any NaN.
#[tactic(auto, using(base::proofs::Fills::fill_starts, base::proofs::Fills::fill_step, base::proofs::Fills::fill_ends, oneway_rows::proofs::Counted::unread))]
pub fn put_columns(sizes: &mut [u32], means: &mut [f64], rows: &[Row])
    requires { (length rows.now ≤ length sizes.old) × (length rows.now ≤ length means.old) }
    ensures sizes { sizes.new ≡ over (map size_of rows.now) sizes.old }
    ensures means { means.new ≡ over (map row_mean rows.now) means.old }
{
    for (g, row) in rows.iter().enumerate() {
        sizes[g] = row.size;
        means[g] = float::canon(row.mean);
    }
}

// It walks from group to group as `base::first_fault` does: one walk for all would take an `FnMut`, and this one would have to say what it does to `out`.
// Puts the rows of groups that passed the checks, without their squares, into their places.
#[tactic(auto, using(base::proofs::Cuts::total_turn, oneway_rows::proofs::Laid::laid_start, oneway_rows::proofs::Laid::laid_turn, oneway_rows::proofs::Laid::laid_done, crate::proofs::Summaries::told_row, crate::proofs::Summaries::told_rows))]
pub fn put_means(out: &mut [Row], readings: &[f64], sizes: &[u32])
    requires { Parted (length readings.now) sizes.now × (length sizes.now ≤ length out.old) }
    ensures { out.new ≡ over (map mean_row (cut sizes.now readings.now)) out.old }
{
    let mut rest = readings;
    for (g, size) in sizes.iter().enumerate() {
        let (group, behind) = rest.split_at(*size as usize);
        out[g] = Row {
            size: *size,
            mean: stats::mean(group).value,
            sq_dev: 0.0,
        };
        rest = behind;
    }
}
