// Printed lines of two-way designs: the analysis, with or without the columns that were skipped, and the gauge study.
use crate::cases::Case;
use crate::lines::Out;
use results::Skips;
use study::GaugeStudy;
use twoway::TwoWayAnovaResult;

const MOST_LENT: usize = 6500;

// The option says how much scratch is lent. Each of its places holds 1.5 before the call.
fn lending<F: FnOnce(&mut Out, &mut [f64])>(out: &mut Out, case: &Case, lines: F)
    requires { F.IsAlwaysCallable lines }
{
    let mut scratch = [1.5; MOST_LENT];
    if let Some(lent) = scratch.get_mut(..case.option as usize) {
        lines(out, lent);
        scratch_line(out, lent);
    } else {
        out.bad_case();
    }
}

pub fn two_way(out: &mut Out, case: &Case, skips: bool) {
    lending(out, case, |out, lent| {
        let r = twoway::two_way_anova(case.readings, case.a, case.b, lent);
        two_way_lines(out, r, skips);
    });
}

pub fn study(out: &mut Out, case: &Case) {
    lending(out, case, |out, lent| {
        let r = study::gauge_study(case.readings, case.a, case.b, lent);
        study_lines(out, r);
    });
}

// `skips` chooses what is printed, and no step that runs.
fn two_way_lines(out: &mut Out, r: TwoWayAnovaResult, skips: bool) {
    if let Err(refusal) = r.refusal.check() {
        return out.refused(refusal);
    }
    table_lines(out, r);
    mean_lines(out, r);
    if skips {
        skips_line(out, r.skips);
    }
}

// What the solver skipped, the inverse of X'X, and those of the blocks of A, B and the interaction.
fn skips_line(out: &mut Out, s: Skips) {
    out.put(b"skipped");
    for n in [s.solver, s.inverse, s.block_a, s.block_b, s.block_ab] {
        out.count(n as u64);
    }
    out.put(b"\n");
}

fn table_lines(out: &mut Out, r: TwoWayAnovaResult) {
    let a = r.factor_a;
    let b = r.factor_b;
    out.form(
        b"twowayABC\na0123\nb4567\n",
        &[r.levels_a as u64, r.levels_b as u64, r.n as u64],
        &[a.ss, a.df, a.ms, a.f, b.ss, b.df, b.ms, b.f],
    );
    let ab = r.interaction;
    let e = r.residual;
    let t = r.total;
    out.form(
        b"ab0123\nresidual456\ntotal789\n",
        &[],
        &[
            ab.ss, ab.df, ab.ms, ab.f, e.ss, e.df, e.ms, t.ss, t.df, t.ms,
        ],
    );
}

fn mean_lines(out: &mut Out, r: TwoWayAnovaResult) {
    out.form(b"grand0\n", &[], &[r.grand_mean]);
    if r.levels_a <= base::MOST_LEVELS && r.levels_b <= base::MOST_LEVELS {
        out.firsts(b"cells@\n", r.levels_a * r.levels_b, &r.cell_means);
    }
    out.firsts(b"margins_a@\n", r.levels_a, &r.marginal_means_a);
    out.firsts(b"margins_b@\n", r.levels_b, &r.marginal_means_b);
}

fn study_lines(out: &mut Out, r: GaugeStudy) {
    if let Err(refusal) = r.refusal.check() {
        return out.refused(refusal);
    }
    out.form(
        b"studyABC\ncomponents01234\n",
        &[r.meters as u64, r.benches as u64, r.readings as u64],
        &[
            r.component_a,
            r.component_b,
            r.component_ab,
            r.component_residual,
            r.component_total,
        ],
    );
}

// How many places have these bits.
fn holding(scratch: &[f64], bits: u64) -> u64 {
    scratch
        .iter()
        .filter(|x| float::bits_of(**x) == bits)
        .count() as u64
}

// The places that hold +0.0, and those that still hold 1.5.
fn scratch_line(out: &mut Out, scratch: &[f64]) {
    let zeros = holding(scratch, 0);
    let kept = holding(scratch, 0x3FF8000000000000);
    out.form(b"scratchAB\n", &[zeros, kept], &[]);
}
