// The gauge study: how much of the readings' variance meters, benches and their interaction account for, from a balanced two-way analysis.
// Readings and the codes of both factors are three slices, as document 01 has them: refusal 5 tells their lengths.
#![tactic(auto)]

ghost use Rattle.std.specs.Prelude.{◌≡◌, ◌*◌, ◌≤◌, length};
ghost use Rattle.base.specs.Limits.{most_levels, most_readings};
ghost use Rattle.base.specs.Refusals.{verdict};
ghost use Rattle.study.specs.Study.{balance_refusal, refused_study, component_of, components_of, gauge_study};

use base::Refusal;
use twoway::TwoWayAnovaResult;

// The components of variance, of which none is below zero; meters are the levels of A, benches those of B, readings those of one cell.
// Document 01 fixes this record, with the refusal beside zeros; the theorem `never_negative` speaks of both.
#[derive(Clone, Copy)]
pub struct GaugeStudy {
    pub refusal: Refusal,
    pub meters: usize,
    pub benches: usize,
    pub readings: usize,
    pub component_a: f64,
    pub component_b: f64,
    pub component_ab: f64,
    pub component_residual: f64,
    pub component_total: f64,
}

// The answer that carries a refusal alone. A private function with one caller is enough: no `From<Refusal>`.
fn refused(refusal: Refusal) -> GaugeStudy
    ensures { result ≡ refused_study refusal }
{
    GaugeStudy {
        refusal,
        meters: 0,
        benches: 0,
        readings: 0,
        component_a: 0.0,
        component_b: 0.0,
        component_ab: 0.0,
        component_residual: 0.0,
        component_total: 0.0,
    }
}

// Whether all cells have as many readings as the first; else how many it has, and how many the first that differs.
#[tactic(auto, unfolding(crate::specs::Study::balance_refusal))]
fn balance_refusal(counts: &[usize]) -> Result<(), Refusal>
    requires { 1 ≤ length counts.now }
    ensures { result ≡ verdict (balance_refusal counts.now) }
{
    let first = counts[0];
    let other = twoway_balanced::other_count(counts);
    if other == first {
        Ok(())
    } else {
        Err(Refusal::new(10, first as u64, other as u64))
    }
}

// One component: what a mean square has more than another, over n readings; +0.0 where it has less. The test is of the difference: a quotient below zero
// may round to -0.0, which is not below zero.
#[tactic(auto, using(float::proofs::Counts::small_count), unfolding(crate::specs::Study::component_of))]
fn component(more: f64, less: f64, n: usize) -> f64
    requires { n ≤ most_levels * most_readings }
    ensures { result ≡ component_of more less n }
{
    let difference = more - less;
    let quotient = difference / (n as f64);
    if difference < 0.0 {
        0.0
    } else {
        float::canon(quotient)
    }
}

// The components, from the mean squares of a table with r readings in each cell.
#[tactic(auto, using(base::proofs::Bounds::product_le), unfolding(crate::specs::Study::components_of))]
fn components(t: TwoWayAnovaResult, r: usize) -> GaugeStudy
    requires { (t.levels_a ≤ most_levels) × ((t.levels_b ≤ most_levels) × (r ≤ most_readings)) }
    ensures { result ≡ components_of t r }
{
    let a = t.levels_a;
    let b = t.levels_b;
    let ms_a = t.factor_a.ms;
    let ms_b = t.factor_b.ms;
    let ms_ab = t.interaction.ms;
    let ms_e = t.residual.ms;
    let component_ab = component(ms_ab, ms_e, r);
    let component_a = component(ms_a, ms_ab, b * r);
    let component_b = component(ms_b, ms_ab, a * r);
    GaugeStudy {
        refusal: Refusal::none(),
        meters: a,
        benches: b,
        readings: r,
        component_a,
        component_b,
        component_ab,
        component_residual: ms_e,
        component_total: float::canon(component_a + component_b + component_ab + ms_e),
    }
}

// The study of readings with a code of the meter and of the bench each. The scratch is lent as for a two-way analysis; a refused call does not touch it.
pub fn gauge_study(
    values: &[f64],
    factor_a: &[u32],
    factor_b: &[u32],
    scratch: &mut [f64],
) -> GaugeStudy
    ensures { (scratch.new, result) ≡ gauge_study values.now factor_a.now factor_b.now scratch.old }
{
    let d = match twoway_checks::check_two_way_data(values, factor_a, factor_b, scratch.len()) {
        Ok(d) => d,
        Err(r) => return refused(r),
    };
    let k = d.levels_a * d.levels_b;
    if let Err(r) = balance_refusal(&d.cell_n[..k]) {
        return refused(r);
    }
    let t = twoway::two_way_anova(values, factor_a, factor_b, scratch);
    components(t, d.cell_n[0])
}
