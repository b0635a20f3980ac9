// The public calls that C cannot call, each behind an exported function, so that each has a symbol. The doubles, the lists and the refusal's number of its
// answer are used, so that the compiler keeps them; counts, flags and the refusal's details are not.
// tools/stack builds this as a static library and reads its frames. The proof is the prover's own: no function here has a contract.
// C asks for each kind by its name, and the stack's table measures each: so what stands once for each kind has its body each time.
// Place `i` of an answer's lists is added to its numbers: which place is not known before, so the whole list must be there.
#![tactic(auto)]

use base::Refusal;
use oneway::AnovaKind;
use oneway_rows::Row;
use repeated::RmAnovaResult;
use results::{AnovaTableRow, CorrectedResult, OneWayAnovaResult};
use sheet::{Edit, Sheet};
use study::GaugeStudy;
use twoway::TwoWayAnovaResult;

fn one_way(r: OneWayAnovaResult, i: usize) -> f64 {
    let mean = r.group_means.get(i).copied().unwrap_or(0.0);
    let size = r.group_sizes.get(i).copied().unwrap_or(0);
    let first = r.statistic + r.df_between + r.df_within + r.ss_between + r.ss_within + r.ss_total;
    let second = r.ms_between + r.ms_within + r.grand_mean + mean + (size as f64);
    first + second + (r.refusal.number as f64)
}

fn edited(e: Edit, i: usize) -> f64 {
    let place = e.sheet.places.get(i).copied().unwrap_or(0.0);
    let (mean, sq_dev, size) = match e.sheet.rows.get(i) {
        Some(row) => (row.mean, row.sq_dev, row.size),
        None => (0.0, 0.0, 0),
    };
    place + mean + sq_dev + (size as f64) + (e.refusal.number as f64)
}

fn row(r: AnovaTableRow) -> f64 {
    r.ss + r.df + r.ms + r.f
}

fn two_way(r: TwoWayAnovaResult, i: usize) -> f64 {
    let cell = r.cell_means.get(i).copied().unwrap_or(0.0);
    let a = r.marginal_means_a.get(i).copied().unwrap_or(0.0);
    let b = r.marginal_means_b.get(i).copied().unwrap_or(0.0);
    let rows = row(r.factor_a)
        + row(r.factor_b)
        + row(r.interaction)
        + row(r.residual)
        + row(r.total);
    rows + r.grand_mean + cell + a + b + (r.refusal.number as f64)
}

fn studied(r: GaugeStudy) -> f64 {
    let effects = r.component_a + r.component_b + r.component_ab;
    effects + r.component_residual + r.component_total + (r.refusal.number as f64)
}

fn corrected(r: CorrectedResult) -> f64 {
    r.epsilon + r.df_num_corrected + r.df_den_corrected + r.f_statistic
}

fn measures(r: RmAnovaResult, i: usize) -> f64 {
    let condition = r.condition_means.get(i).copied().unwrap_or(0.0);
    let subject = r.subject_means.get(i).copied().unwrap_or(0.0);
    let rows = row(r.within_subjects) + row(r.subjects) + row(r.error) + row(r.total);
    let sphericity = r.sphericity.w
        + r.sphericity.df
        + corrected(r.greenhouse_geisser)
        + corrected(r.huynh_feldt);
    rows + sphericity + r.grand_mean + condition + subject + (r.refusal.number as f64)
}

#[unsafe(no_mangle)]
pub extern "C" fn call_mean(readings: &[f64]) -> f64 {
    let r = stats::mean(readings);
    r.value + (r.refusal.number as f64)
}

#[unsafe(no_mangle)]
pub extern "C" fn call_variance(readings: &[f64]) -> f64 {
    let r = stats::variance(readings);
    r.value + (r.refusal.number as f64)
}

#[unsafe(no_mangle)]
pub extern "C" fn call_sqrt(x: f64) -> f64 {
    root::sqrt(x)
}

#[unsafe(no_mangle)]
pub extern "C" fn call_one_way_anova_fisher(readings: &[f64], sizes: &[u32], i: usize) -> f64 {
    one_way(oneway::one_way_anova(readings, sizes, AnovaKind::Fisher), i)
}

#[unsafe(no_mangle)]
pub extern "C" fn call_one_way_anova_welch(readings: &[f64], sizes: &[u32], i: usize) -> f64 {
    one_way(oneway::one_way_anova(readings, sizes, AnovaKind::Welch), i)
}

#[unsafe(no_mangle)]
pub extern "C" fn call_one_way_anova_levene(readings: &[f64], sizes: &[u32], i: usize) -> f64 {
    one_way(oneway::one_way_anova(readings, sizes, AnovaKind::Levene), i)
}

// `report` with the rows that the groups have.
#[unsafe(no_mangle)]
pub extern "C" fn call_report_fisher(readings: &[f64], sizes: &[u32], i: usize) -> f64 {
    let stats = oneway_rows::validate_anova_groups(readings, sizes);
    one_way(
        oneway::report(stats.rows, sizes.len(), readings, AnovaKind::Fisher),
        i,
    )
}

#[unsafe(no_mangle)]
pub extern "C" fn call_report_welch(readings: &[f64], sizes: &[u32], i: usize) -> f64 {
    let stats = oneway_rows::validate_anova_groups(readings, sizes);
    one_way(
        oneway::report(stats.rows, sizes.len(), readings, AnovaKind::Welch),
        i,
    )
}

#[unsafe(no_mangle)]
pub extern "C" fn call_report_levene(readings: &[f64], sizes: &[u32], i: usize) -> f64 {
    let stats = oneway_rows::validate_anova_groups(readings, sizes);
    one_way(
        oneway::report(stats.rows, sizes.len(), readings, AnovaKind::Levene),
        i,
    )
}

#[unsafe(no_mangle)]
pub extern "C" fn call_set_anova_fisher(set: &[u8], i: usize) -> f64 {
    one_way(set::set_anova(set, AnovaKind::Fisher), i)
}

#[unsafe(no_mangle)]
pub extern "C" fn call_set_anova_welch(set: &[u8], i: usize) -> f64 {
    one_way(set::set_anova(set, AnovaKind::Welch), i)
}

#[unsafe(no_mangle)]
pub extern "C" fn call_set_anova_levene(set: &[u8], i: usize) -> f64 {
    one_way(set::set_anova(set, AnovaKind::Levene), i)
}

#[unsafe(no_mangle)]
pub extern "C" fn call_sheet_load(readings: &[f64], sizes: &[u32], i: usize) -> f64 {
    edited(Sheet::load(readings, sizes), i)
}

// An edit needs a sheet, so each of these loads one first.
#[unsafe(no_mangle)]
pub extern "C" fn call_sheet_replace(
    readings: &[f64],
    sizes: &[u32],
    group: usize,
    place: usize,
    x: f64,
    i: usize,
) -> f64 {
    let loaded = Sheet::load(readings, sizes);
    edited(loaded.sheet.replace(group, place, x), i)
}

#[unsafe(no_mangle)]
pub extern "C" fn call_sheet_append(
    readings: &[f64],
    sizes: &[u32],
    group: usize,
    x: f64,
    i: usize,
) -> f64 {
    let loaded = Sheet::load(readings, sizes);
    edited(loaded.sheet.append(group, x), i)
}

#[unsafe(no_mangle)]
pub extern "C" fn call_sheet_remove(
    readings: &[f64],
    sizes: &[u32],
    group: usize,
    place: usize,
    i: usize,
) -> f64 {
    let loaded = Sheet::load(readings, sizes);
    edited(loaded.sheet.remove(group, place), i)
}

#[unsafe(no_mangle)]
pub extern "C" fn call_sheet_report_fisher(readings: &[f64], sizes: &[u32], i: usize) -> f64 {
    let loaded = Sheet::load(readings, sizes);
    one_way(loaded.sheet.report(AnovaKind::Fisher), i)
}

#[unsafe(no_mangle)]
pub extern "C" fn call_sheet_report_welch(readings: &[f64], sizes: &[u32], i: usize) -> f64 {
    let loaded = Sheet::load(readings, sizes);
    one_way(loaded.sheet.report(AnovaKind::Welch), i)
}

#[unsafe(no_mangle)]
pub extern "C" fn call_sheet_report_levene(readings: &[f64], sizes: &[u32], i: usize) -> f64 {
    let loaded = Sheet::load(readings, sizes);
    one_way(loaded.sheet.report(AnovaKind::Levene), i)
}

#[unsafe(no_mangle)]
pub extern "C" fn call_two_way_anova(
    values: &[f64],
    factor_a: &[u32],
    factor_b: &[u32],
    scratch: &mut [f64],
    i: usize,
) -> f64 {
    two_way(
        twoway::two_way_anova(values, factor_a, factor_b, scratch),
        i,
    )
}

#[unsafe(no_mangle)]
pub extern "C" fn call_gauge_study(
    values: &[f64],
    factor_a: &[u32],
    factor_b: &[u32],
    scratch: &mut [f64],
) -> f64 {
    studied(study::gauge_study(values, factor_a, factor_b, scratch))
}

// C hands over a number for a choice.
#[unsafe(no_mangle)]
pub extern "C" fn call_repeated_measures_anova(
    readings: &[f64],
    sizes: &[u32],
    sphericity: u32,
    i: usize,
) -> f64 {
    measures(
        repeated::repeated_measures_anova(readings, sizes, sphericity == 1),
        i,
    )
}

#[unsafe(no_mangle)]
pub extern "C" fn call_solve_linear_system(m: &mut [f64], n: usize) -> bool {
    matrix_linear::solve_linear_system(m, n).taken
}

#[unsafe(no_mangle)]
pub extern "C" fn call_matrix_inverse(m: &mut [f64], n: usize) -> bool {
    matrix_linear::matrix_inverse(m, n).taken
}

#[unsafe(no_mangle)]
pub extern "C" fn call_matrix_determinant(m: &mut [f64], n: usize) -> f64 {
    matrix_linear::matrix_determinant(m, n)
}

#[unsafe(no_mangle)]
pub extern "C" fn call_orthonormalize(c: &mut [f64], p: usize, k: usize) -> bool {
    matrix_orthonormal::orthonormalize(c, p, k)
}

#[unsafe(no_mangle)]
pub extern "C" fn call_matrix_multiply_csc(
    c: &[f64],
    s: &[f64],
    p: usize,
    k: usize,
    out: &mut [f64],
) -> bool {
    matrix_product::matrix_multiply_csc(c, s, p, k, out)
}

#[unsafe(no_mangle)]
pub extern "C" fn call_qr_decomposition(a: &[f64], n: usize, q: &mut [f64], r: &mut [f64]) -> bool {
    matrix_eigen::qr_decomposition(a, n, q, r)
}

#[unsafe(no_mangle)]
pub extern "C" fn call_compute_eigenvalues(m: &mut [f64], n: usize, values: &mut [f64]) -> bool {
    matrix_eigen::compute_eigenvalues(m, n, values)
}

#[unsafe(no_mangle)]
pub extern "C" fn call_group(readings: &[f64], sizes: &[u32], g: usize) -> usize {
    oneway_checks::group(readings, sizes, g).len()
}

// The number of a refusal; 0 where there is none.
fn number_of<T: Drop>(told: Result<T, Refusal>) -> u32 {
    match told {
        Ok(_) => 0,
        Err(refusal) => refusal.number,
    }
}

#[unsafe(no_mangle)]
pub extern "C" fn call_group_refusal(readings: &[f64], sizes: &[u32], g: usize) -> u32 {
    number_of(oneway_checks::group_refusal(readings, sizes, g))
}

#[unsafe(no_mangle)]
pub extern "C" fn call_put_rows(readings: &[f64], sizes: &[u32]) -> f64 {
    let mut rows = [Row::empty(); base::MOST_GROUPS];
    oneway_rows::put_rows(&mut rows, readings, sizes);
    rows[0].mean
}

#[unsafe(no_mangle)]
pub extern "C" fn call_one_way_refusal(readings: &[f64], sizes: &[u32]) -> u32 {
    number_of(oneway_checks::one_way_refusal(readings, sizes))
}

#[unsafe(no_mangle)]
pub extern "C" fn call_repeated_refusal(readings: &[f64], sizes: &[u32]) -> u32 {
    number_of(repeated_checks::repeated_refusal(readings, sizes))
}

#[unsafe(no_mangle)]
pub extern "C" fn call_cell_number(a: u32, b: u32, levels_b: u32) -> usize {
    twoway_checks::cell_number(a, b, levels_b)
}

#[unsafe(no_mangle)]
pub extern "C" fn call_check_two_way_data(
    values: &[f64],
    a: &[u32],
    b: &[u32],
    lent: usize,
) -> u32 {
    number_of(twoway_checks::check_two_way_data(values, a, b, lent))
}

#[unsafe(no_mangle)]
pub extern "C" fn call_read_set(set: &[u8], i: usize) -> f64 {
    match set::read_set(set) {
        Ok(r) => r.readings.get(i).copied().unwrap_or(0.0) + 0.0,
        Err(refusal) => refusal.number as f64,
    }
}

#[unsafe(no_mangle)]
pub extern "C" fn call_put_hex(out: &mut [u8], at: usize, x: u64) -> usize {
    text::put_hex(out, at, x)
}

#[unsafe(no_mangle)]
pub extern "C" fn call_put_decimal(out: &mut [u8], at: usize, n: u64) -> usize {
    text::put_decimal(out, at, n)
}
