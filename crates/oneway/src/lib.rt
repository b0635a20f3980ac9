// One-way analysis of variance, Fisher's, Welch's and Levene's, from the groups' rows.
// Readings and sizes are two slices, as document 01 has them: refusal 10 tells their sums.
#![tactic(auto)]

mod fisher;
mod levene;
mod summary;
mod welch;

ghost use Rattle.std.specs.Prelude.{◌≡◌, map, length};
ghost use Rattle.oneway_rows.specs.Inner.{Parted};
ghost use Rattle.oneway.specs.Summary.{size_of};
ghost use Rattle.oneway.specs.Anova.{anova, one_way_anova, rows_report};

use base::Refusal;
use oneway_rows::Row;
use results::OneWayAnovaResult;

#[derive(Clone, Copy)]
pub enum AnovaKind {
    Fisher,
    Welch,
    Levene,
}

// The formulas of a kind, over rows whose sizes passed the checks.
#[tactic(auto, using(crate::proofs::Summaries::small_parted), unfolding(crate::specs::Anova::anova))]
fn anova(kind: AnovaKind, rows: &[Row], readings: &[f64]) -> OneWayAnovaResult
    requires { Parted (length readings.now) (map size_of rows.now) }
    ensures { result ≡ anova kind rows.now readings.now }
{
    match kind {
        AnovaKind::Fisher => fisher::fisher_anova(rows, readings),
        AnovaKind::Welch => welch::welch_anova(rows),
        AnovaKind::Levene => levene::levene_anova(readings, rows),
    }
}

// The analysis of groups that lie one after another in `readings`, as many readings in each as `sizes` says.
#[tactic(auto, using(base::proofs::Order::passed_answer, base::proofs::Order::refused_answer, base::proofs::Order::was_passed, base::proofs::Order::was_refused, oneway_rows::proofs::Parts::parted), unfolding(crate::specs::Anova::one_way_anova, oneway_rows::specs::Rows::empty_rows))]
pub fn one_way_anova(readings: &[f64], sizes: &[u32], kind: AnovaKind) -> OneWayAnovaResult
    ensures { result ≡ one_way_anova kind readings.now sizes.now }
{
    if let Err(refusal) = oneway_checks::one_way_refusal(readings, sizes) {
        return results::refused(refusal);
    }
    let mut rows = [Row::empty(); base::MOST_GROUPS];
    match kind {
        AnovaKind::Fisher | AnovaKind::Welch => oneway_rows::put_rows(&mut rows, readings, sizes),
        // Levene's analysis looks at the sizes and means alone, and so the squares are not worked out.
        AnovaKind::Levene => summary::put_means(&mut rows, readings, sizes),
    }
    anova(kind, &rows[..sizes.len()], readings)
}

// The analysis of k groups whose rows the caller holds already, with their readings: the same formulas, and no row is worked out anew.
// Behind 13, readings that are not as many as the rows say are refused with 10. Rows and their number are two parameters, which its clause names.
#[tactic(auto, using(base::proofs::Order::answers_refused, base::proofs::Order::was_passed, base::proofs::Order::was_refused, oneway_rows::proofs::Counted::sound, oneway_rows::proofs::Counted::sizes_added, crate::proofs::Summaries::small_sound, crate::proofs::Summaries::rows_taken, crate::proofs::Summaries::parted_rows, crate::proofs::Reports::ten, crate::proofs::Reports::report_unsound, crate::proofs::Reports::report_sound), unfolding(crate::specs::Anova::rows_report))]
pub fn report(
    rows: [Row; base::MOST_GROUPS],
    k: usize,
    readings: &[f64],
    kind: AnovaKind,
) -> OneWayAnovaResult
    ensures { result ≡ rows_report kind k rows readings.now }
{
    if let Err(unsound) = oneway_rows::sound::rows_refusal(rows, k) {
        return results::refused(unsound);
    }
    let rows = &rows[..k];
    let needed = summary::n_total(rows) as u64;
    if needed != readings.len() as u64 {
        return results::refused(Refusal::new(10, needed, readings.len() as u64));
    }
    anova(kind, rows, readings)
}
