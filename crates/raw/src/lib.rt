// The public functions that store or hand out doubles, each behind an exported one that makes that one call. All doubles of an answer go to memory that the
// caller lends, as they are: an answer with lists has a part of that memory for its numbers and one for each list. Lent memory is lent on.
// tests/nanbits/library builds this as a static library, tests/nanbits/list says which public function is missing here, and tests/nanbits/rawcalls.c reads
// the bits. The proof is the prover's own: no function here has a contract.
#![tactic(auto)]

use base::Refusal;
use oneway::AnovaKind;
use oneway_rows::Row;
use repeated::RmAnovaResult;
use results::{
    AnovaTableRow, CorrectedResult, Corrections, Effects, OneWayAnovaResult, SphericityResult,
};
use sheet::{Edit, Sheet};
use stats::Figure;
use twoway::TwoWayAnovaResult;

// ---- single floats

#[unsafe(no_mangle)]
pub extern "C" fn raw_canon(x: f64) -> f64 {
    float::canon(x)
}

#[unsafe(no_mangle)]
pub extern "C" fn raw_canon_places(m: &mut [f64], k: usize) {
    float::canon_places(m, k);
}

#[unsafe(no_mangle)]
pub extern "C" fn raw_abs(x: f64) -> f64 {
    float::abs(x)
}

#[unsafe(no_mangle)]
pub extern "C" fn raw_least(a: f64, b: f64) -> f64 {
    float::least(a, b)
}

#[unsafe(no_mangle)]
pub extern "C" fn raw_greatest(a: f64, b: f64) -> f64 {
    float::greatest(a, b)
}

#[unsafe(no_mangle)]
pub extern "C" fn raw_clamp(x: f64, low: f64, high: f64) -> f64 {
    float::clamp(x, low, high)
}

#[unsafe(no_mangle)]
pub extern "C" fn raw_power(x: f64, p: u32) -> f64 {
    float::power(x, p)
}

#[unsafe(no_mangle)]
pub extern "C" fn raw_float_of(n: u64) -> f64 {
    float::float_of(n)
}

#[unsafe(no_mangle)]
pub extern "C" fn raw_sqrt(x: f64) -> f64 {
    root::sqrt(x)
}

// ---- lent memory

#[unsafe(no_mangle)]
pub extern "C" fn raw_put(out: &mut [f64], numbers: &[f64]) {
    lent::put(out, numbers);
}

#[unsafe(no_mangle)]
pub extern "C" fn raw_wipe(work: &mut [f64]) {
    lent::wipe(work);
}

// ---- sums, means and variances

#[unsafe(no_mangle)]
pub extern "C" fn raw_sum(readings: &[f64]) -> f64 {
    stats::sum(readings)
}

#[unsafe(no_mangle)]
pub extern "C" fn raw_sq_dev(readings: &[f64], mean: f64) -> f64 {
    stats::sq_dev(readings, mean)
}

#[unsafe(no_mangle)]
pub extern "C" fn raw_mean(readings: &[f64], out: &mut [f64]) -> u32 {
    let r = stats::mean(readings);
    lent::put(out, &[r.value]);
    r.refusal.number
}

#[unsafe(no_mangle)]
pub extern "C" fn raw_variance(readings: &[f64], out: &mut [f64]) -> u32 {
    let r = stats::variance(readings);
    lent::put(out, &[r.value]);
    r.refusal.number
}

// The record of a number.
#[unsafe(no_mangle)]
pub extern "C" fn raw_figure(x: f64, out: &mut [f64]) -> u32 {
    let number: Result<f64, Refusal> = Ok(x);
    let r = Figure::from(number);
    lent::put(out, &[r.value]);
    r.refusal.number
}

// ---- one-way data: rows, analyses, the sheet, the reading set

// C hands in and takes out numbers and lists beside each other.
// 0 is Fisher's, 1 Welch's, and any other number Levene's. It stands here since C hands over a number, and `AnovaKind` promises nothing of numbers.
fn kind_of(kind: u32) -> AnovaKind {
    match kind {
        0 => AnovaKind::Fisher,
        1 => AnovaKind::Welch,
        _ => AnovaKind::Levene,
    }
}

fn hand_out_one_way(r: OneWayAnovaResult, figures: &mut [f64], means: &mut [f64]) -> u32 {
    let numbers = [
        r.statistic,
        r.df_between,
        r.df_within,
        r.ss_between,
        r.ss_within,
        r.ss_total,
        r.ms_between,
        r.ms_within,
        r.grand_mean,
    ];
    lent::put(figures, &numbers);
    lent::put(means, &r.group_means);
    r.refusal.number
}

fn hand_out_rows(rows: [Row; base::MOST_GROUPS], means: &mut [f64], sq_devs: &mut [f64]) {
    lent::put(means, &rows.map(|row| row.mean));
    lent::put(sq_devs, &rows.map(|row| row.sq_dev));
}

// A row for each group; the empty row where one of the three lists is too short.
fn rows_from(sizes: &[u32], means: &[f64], sq_devs: &[f64]) -> [Row; base::MOST_GROUPS] {
    std::array::from_fn(|g| match (sizes.get(g), means.get(g), sq_devs.get(g)) {
        (Some(size), Some(mean), Some(sq_dev)) => Row {
            size: *size,
            mean: *mean,
            sq_dev: *sq_dev,
        },
        _ => Row::empty(),
    })
}

// A sheet that does not come from load: its readings and its rows are whatever the caller says.
fn sheet_from(
    readings: &[f64],
    sizes: &[u32],
    means: &[f64],
    sq_devs: &[f64],
    groups: usize,
) -> Sheet {
    let mut places = [0.0; Sheet::PLACES];
    lent::put(&mut places, readings);
    Sheet {
        places,
        rows: rows_from(sizes, means, sq_devs),
        groups,
    }
}

fn hand_out_edit(e: Edit, readings: &mut [f64], means: &mut [f64], sq_devs: &mut [f64]) -> u32 {
    lent::put(readings, &e.sheet.places);
    hand_out_rows(e.sheet.rows, means, sq_devs);
    e.refusal.number
}

// The answer that carries a refusal alone.
#[unsafe(no_mangle)]
pub extern "C" fn raw_refused(number: u32, figures: &mut [f64], means: &mut [f64]) -> u32 {
    hand_out_one_way(results::refused(Refusal::new(number, 0, 0)), figures, means)
}

// The row of no group, by its own type and by the sheet's.
#[unsafe(no_mangle)]
pub extern "C" fn raw_empty_rows(out: &mut [f64]) {
    let r = Row::empty();
    let s = Sheet::empty_row();
    lent::put(out, &[r.mean, r.sq_dev, s.mean, s.sq_dev]);
}

#[unsafe(no_mangle)]
pub extern "C" fn raw_row_of(group: &[f64], out: &mut [f64]) -> u32 {
    let r = Row::of(group);
    lent::put(out, &[r.mean, r.sq_dev]);
    r.size
}

// The rows of groups that need not have passed a check.
#[unsafe(no_mangle)]
pub extern "C" fn raw_put_rows(
    readings: &[f64],
    sizes: &[u32],
    means: &mut [f64],
    sq_devs: &mut [f64],
) -> u32 {
    let mut rows = [Row::empty(); base::MOST_GROUPS];
    oneway_rows::put_rows(&mut rows, readings, sizes);
    hand_out_rows(rows, means, sq_devs);
    0
}

#[unsafe(no_mangle)]
pub extern "C" fn raw_validate(
    readings: &[f64],
    sizes: &[u32],
    means: &mut [f64],
    sq_devs: &mut [f64],
) -> u32 {
    let s = oneway_rows::validate_anova_groups(readings, sizes);
    hand_out_rows(s.rows, means, sq_devs);
    s.refusal.number
}

#[unsafe(no_mangle)]
pub extern "C" fn raw_one_way(
    readings: &[f64],
    sizes: &[u32],
    kind: u32,
    figures: &mut [f64],
    means: &mut [f64],
) -> u32 {
    hand_out_one_way(
        oneway::one_way_anova(readings, sizes, kind_of(kind)),
        figures,
        means,
    )
}

#[unsafe(no_mangle)]
pub extern "C" fn raw_report(
    readings: &[f64],
    sizes: &[u32],
    means: &[f64],
    sq_devs: &[f64],
    k: usize,
    kind: u32,
    figures: &mut [f64],
    out: &mut [f64],
) -> u32 {
    let rows = rows_from(sizes, means, sq_devs);
    hand_out_one_way(
        oneway::report(rows, k, readings, kind_of(kind)),
        figures,
        out,
    )
}

#[unsafe(no_mangle)]
pub extern "C" fn raw_sheet_load(
    readings: &[f64],
    sizes: &[u32],
    places: &mut [f64],
    means: &mut [f64],
    sq_devs: &mut [f64],
) -> u32 {
    hand_out_edit(Sheet::load(readings, sizes), places, means, sq_devs)
}

// An edit in place: the sheet lies in the three lists, and the one after the edit takes its place there. 1 replaces, 2 appends, and any other number removes.
// The match stands here since C hands over a number, and the sheet promises nothing of numbers.
#[unsafe(no_mangle)]
pub extern "C" fn raw_sheet_edit(
    places: &mut [f64],
    sizes: &[u32],
    means: &mut [f64],
    sq_devs: &mut [f64],
    groups: usize,
    op: u32,
    group: usize,
    place: usize,
    x: f64,
) -> u32 {
    let s = sheet_from(places, sizes, means, sq_devs, groups);
    let e = match op {
        1 => s.replace(group, place, x),
        2 => s.append(group, x),
        _ => s.remove(group, place),
    };
    hand_out_edit(e, places, means, sq_devs)
}

#[unsafe(no_mangle)]
pub extern "C" fn raw_sheet_report(
    places: &[f64],
    sizes: &[u32],
    means: &[f64],
    sq_devs: &[f64],
    groups: usize,
    kind: u32,
    figures: &mut [f64],
    out: &mut [f64],
) -> u32 {
    let s = sheet_from(places, sizes, means, sq_devs, groups);
    hand_out_one_way(s.report(kind_of(kind)), figures, out)
}

#[unsafe(no_mangle)]
pub extern "C" fn raw_group(readings: &[f64], sizes: &[u32], g: usize, out: &mut [f64]) -> usize {
    let view = oneway_checks::group(readings, sizes, g);
    lent::put(out, view);
    view.len()
}

#[unsafe(no_mangle)]
pub extern "C" fn raw_read_set(set: &[u8], out: &mut [f64]) -> u32 {
    match set::read_set(set) {
        Ok(r) => {
            lent::put(out, &r.readings);
            0
        }
        Err(refusal) => {
            lent::put(out, &[0.0; base::MOST_READINGS]);
            refusal.number
        }
    }
}

#[unsafe(no_mangle)]
pub extern "C" fn raw_set_anova(
    set: &[u8],
    kind: u32,
    figures: &mut [f64],
    means: &mut [f64],
) -> u32 {
    hand_out_one_way(set::set_anova(set, kind_of(kind)), figures, means)
}

// ---- tables, two-way analysis and the study

fn hand_out_row(r: AnovaTableRow, out: &mut [f64]) {
    lent::put(out, &[r.ss, r.df, r.ms, r.f]);
}

fn hand_out_effects(e: Effects, out: &mut [f64]) {
    lent::put(out, &[e.ss_a, e.ss_b, e.ss_ab]);
}

// Counts, as many as there are places for. Two slices of the shorter length would be no plainer.
fn put_counts(counts: &mut [u64], numbers: &[u64]) {
    for (place, n) in counts.iter_mut().zip(numbers) {
        *place = *n;
    }
}

// A refusal and the counts beside it.
fn hand_out_counts(refusal: Refusal, a: usize, b: usize, n: usize, counts: &mut [u64]) -> u32 {
    put_counts(
        counts,
        &[
            refusal.number as u64,
            refusal.first,
            refusal.second,
            a as u64,
            b as u64,
            n as u64,
        ],
    );
    refusal.number
}

#[unsafe(no_mangle)]
pub extern "C" fn raw_effect_row(ss: f64, df: f64, ms_error: f64, out: &mut [f64]) {
    hand_out_row(results::effect_row(ss, df, ms_error), out);
}

#[unsafe(no_mangle)]
pub extern "C" fn raw_plain_row(ss: f64, df: f64, out: &mut [f64]) {
    hand_out_row(results::plain_row(ss, df), out);
}

#[unsafe(no_mangle)]
pub extern "C" fn raw_no_row(out: &mut [f64]) {
    hand_out_row(results::no_row(), out);
}

#[unsafe(no_mangle)]
pub extern "C" fn raw_no_effects(out: &mut [f64]) {
    hand_out_effects(results::no_effects(), out);
}

// How many readings cell `cell` has, and 0 behind the last.
#[unsafe(no_mangle)]
pub extern "C" fn raw_organize(
    values: &[f64],
    factor_a: &[u32],
    factor_b: &[u32],
    cell: usize,
    scratch: &mut [f64],
    counts: &mut [u64],
) -> usize {
    match twoway_cells::organize_two_way_data(values, factor_a, factor_b, scratch) {
        Ok(d) => {
            hand_out_counts(Refusal::none(), d.levels_a, d.levels_b, d.n_total, counts);
            d.cell_n.get(cell).copied().unwrap_or(0)
        }
        Err(refusal) => {
            hand_out_counts(refusal, 0, 0, 0, counts);
            0
        }
    }
}

#[unsafe(no_mangle)]
pub extern "C" fn raw_cell_table(
    readings: &[f64],
    counts: &[usize],
    a: usize,
    b: usize,
    error: &mut [f64],
    cells: &mut [f64],
    means_a: &mut [f64],
    means_b: &mut [f64],
) {
    let t = twoway_means::cell_table(readings, counts, a, b);
    lent::put(error, &[t.ss_error]);
    lent::put(cells, &t.cell_means);
    lent::put(means_a, &t.marginal_means_a);
    lent::put(means_b, &t.marginal_means_b);
}

#[unsafe(no_mangle)]
pub extern "C" fn raw_balanced_ss(means: &[f64], r: usize, a: usize, b: usize, out: &mut [f64]) {
    hand_out_effects(twoway_balanced::balanced_ss(means, r, a, b), out);
}

#[unsafe(no_mangle)]
pub extern "C" fn raw_normal_equations(
    values: &[f64],
    factor_a: &[u32],
    factor_b: &[u32],
    a: usize,
    b: usize,
    work: &mut [f64],
) -> bool {
    twoway_normal::normal_equations(values, factor_a, factor_b, a, b, work)
}

#[unsafe(no_mangle)]
pub extern "C" fn raw_type3_ss(
    values: &[f64],
    factor_a: &[u32],
    factor_b: &[u32],
    a: usize,
    b: usize,
    work: &mut [f64],
    out: &mut [f64],
    counts: &mut [u64],
) {
    let e = twoway_type3::type3_ss(values, factor_a, factor_b, a, b, work);
    hand_out_effects(e, out);
    let s = e.skips;
    put_counts(
        counts,
        &[
            s.solver as u64,
            s.inverse as u64,
            s.block_a as u64,
            s.block_b as u64,
            s.block_ab as u64,
        ],
    );
}

fn hand_out_two_way(
    r: TwoWayAnovaResult,
    table: &mut [f64],
    cells: &mut [f64],
    means_a: &mut [f64],
    means_b: &mut [f64],
) {
    let numbers = [
        r.factor_a.ss,
        r.factor_a.df,
        r.factor_a.ms,
        r.factor_a.f,
        r.factor_b.ss,
        r.factor_b.df,
        r.factor_b.ms,
        r.factor_b.f,
        r.interaction.ss,
        r.interaction.df,
        r.interaction.ms,
        r.interaction.f,
        r.residual.ss,
        r.residual.df,
        r.residual.ms,
        r.residual.f,
        r.total.ss,
        r.total.df,
        r.total.ms,
        r.total.f,
        r.grand_mean,
    ];
    lent::put(table, &numbers);
    lent::put(cells, &r.cell_means);
    lent::put(means_a, &r.marginal_means_a);
    lent::put(means_b, &r.marginal_means_b);
}

#[unsafe(no_mangle)]
pub extern "C" fn raw_two_way(
    values: &[f64],
    factor_a: &[u32],
    factor_b: &[u32],
    scratch: &mut [f64],
    table: &mut [f64],
    cells: &mut [f64],
    means_a: &mut [f64],
    means_b: &mut [f64],
    counts: &mut [u64],
) -> u32 {
    let r = twoway::two_way_anova(values, factor_a, factor_b, scratch);
    hand_out_two_way(r, table, cells, means_a, means_b);
    hand_out_counts(r.refusal, r.levels_a, r.levels_b, r.n, counts)
}

#[unsafe(no_mangle)]
pub extern "C" fn raw_gauge_study(
    values: &[f64],
    factor_a: &[u32],
    factor_b: &[u32],
    scratch: &mut [f64],
    out: &mut [f64],
    counts: &mut [u64],
) -> u32 {
    let r = study::gauge_study(values, factor_a, factor_b, scratch);
    let numbers = [
        r.component_a,
        r.component_b,
        r.component_ab,
        r.component_residual,
        r.component_total,
    ];
    lent::put(out, &numbers);
    hand_out_counts(r.refusal, r.meters, r.benches, r.readings, counts)
}

// ---- repeated measures

fn hand_out_corrections(
    w: SphericityResult,
    gg: CorrectedResult,
    hf: CorrectedResult,
    out: &mut [f64],
) {
    let numbers = [
        w.w,
        w.df,
        gg.epsilon,
        gg.df_num_corrected,
        gg.df_den_corrected,
        gg.f_statistic,
        hf.epsilon,
        hf.df_num_corrected,
        hf.df_den_corrected,
        hf.f_statistic,
    ];
    lent::put(out, &numbers);
}

fn hand_out_all_corrections(c: Corrections, out: &mut [f64]) {
    hand_out_corrections(c.sphericity, c.greenhouse_geisser, c.huynh_feldt, out);
}

#[unsafe(no_mangle)]
pub extern "C" fn raw_rm_table(
    readings: &[f64],
    n: usize,
    k: usize,
    figures: &mut [f64],
    subjects: &mut [f64],
    conditions: &mut [f64],
) {
    let t = repeated_grid::rm_table(readings, n, k);
    let numbers = [
        t.grand_mean,
        t.ss_total,
        t.ss_subjects,
        t.ss_conditions,
        t.ss_error,
    ];
    lent::put(figures, &numbers);
    lent::put(subjects, &t.subject_means);
    lent::put(conditions, &t.condition_means);
}

#[unsafe(no_mangle)]
pub extern "C" fn raw_corrections(
    readings: &[f64],
    means: &[f64],
    n: usize,
    k: usize,
    f_stat: f64,
    df_num: f64,
    df_den: f64,
    out: &mut [f64],
) {
    hand_out_all_corrections(
        repeated_sphericity::compute_sphericity_corrections(
            readings, means, n, k, f_stat, df_num, df_den,
        ),
        out,
    );
}

#[unsafe(no_mangle)]
pub extern "C" fn raw_no_corrections(out: &mut [f64]) {
    hand_out_all_corrections(results::no_corrections(), out);
}

fn hand_out_repeated(
    r: RmAnovaResult,
    table: &mut [f64],
    corrections: &mut [f64],
    conditions: &mut [f64],
    subjects: &mut [f64],
) -> u32 {
    let numbers = [
        r.within_subjects.ss,
        r.within_subjects.df,
        r.within_subjects.ms,
        r.within_subjects.f,
        r.subjects.ss,
        r.subjects.df,
        r.subjects.ms,
        r.subjects.f,
        r.error.ss,
        r.error.df,
        r.error.ms,
        r.error.f,
        r.total.ss,
        r.total.df,
        r.total.ms,
        r.total.f,
        r.grand_mean,
    ];
    lent::put(table, &numbers);
    hand_out_corrections(
        r.sphericity,
        r.greenhouse_geisser,
        r.huynh_feldt,
        corrections,
    );
    lent::put(conditions, &r.condition_means);
    lent::put(subjects, &r.subject_means);
    r.refusal.number
}

#[unsafe(no_mangle)]
pub extern "C" fn raw_repeated(
    readings: &[f64],
    sizes: &[u32],
    sphericity: u32,
    table: &mut [f64],
    corrections: &mut [f64],
    conditions: &mut [f64],
    subjects: &mut [f64],
) -> u32 {
    hand_out_repeated(
        repeated::repeated_measures_anova(readings, sizes, sphericity == 1),
        table,
        corrections,
        conditions,
        subjects,
    )
}

// ---- matrices

#[unsafe(no_mangle)]
pub extern "C" fn raw_solve(m: &mut [f64], n: usize) -> bool {
    matrix_linear::solve_linear_system(m, n).taken
}

#[unsafe(no_mangle)]
pub extern "C" fn raw_inverse(m: &mut [f64], n: usize) -> bool {
    matrix_linear::matrix_inverse(m, n).taken
}

#[unsafe(no_mangle)]
pub extern "C" fn raw_determinant(m: &mut [f64], n: usize) -> f64 {
    matrix_linear::matrix_determinant(m, n)
}

#[unsafe(no_mangle)]
pub extern "C" fn raw_dot(
    x: &[f64],
    p: usize,
    s: usize,
    y: &[f64],
    q: usize,
    t: usize,
    n: usize,
    z: f64,
) -> f64 {
    matrix_places::dot(x, p, s, y, q, t, n, z)
}

#[unsafe(no_mangle)]
pub extern "C" fn raw_less_row(m: &mut [f64], p: usize, q: usize, f: f64, i: usize, w: usize) {
    matrix_places::less_row(m, p, q, f, i, w);
}

#[unsafe(no_mangle)]
pub extern "C" fn raw_over_row(m: &mut [f64], p: usize, d: f64, w: usize) {
    matrix_places::over_row(m, p, d, w);
}

#[unsafe(no_mangle)]
pub extern "C" fn raw_orthonormalize(c: &mut [f64], p: usize, k: usize) -> bool {
    matrix_orthonormal::orthonormalize(c, p, k)
}

#[unsafe(no_mangle)]
pub extern "C" fn raw_product(
    a: &[f64],
    b: &[f64],
    u: usize,
    t: usize,
    n: usize,
    l: usize,
    w: usize,
    out: &mut [f64],
) {
    matrix_product::product(a, b, u, t, n, l, w, out);
}

#[unsafe(no_mangle)]
pub extern "C" fn raw_csc(c: &[f64], s: &[f64], p: usize, k: usize, out: &mut [f64]) -> bool {
    matrix_product::matrix_multiply_csc(c, s, p, k, out)
}

#[unsafe(no_mangle)]
pub extern "C" fn raw_qr(a: &[f64], n: usize, q: &mut [f64], r: &mut [f64]) -> bool {
    matrix_eigen::qr_decomposition(a, n, q, r)
}

#[unsafe(no_mangle)]
pub extern "C" fn raw_eigenvalues(m: &mut [f64], n: usize, values: &mut [f64]) -> bool {
    matrix_eigen::compute_eigenvalues(m, n, values)
}

#[unsafe(no_mangle)]
pub extern "C" fn raw_contrast_covariance(
    readings: &[f64],
    means: &[f64],
    n: usize,
    k: usize,
    out: &mut [f64],
) -> bool {
    repeated_contrasts::contrast_covariance(readings, means, n, k, out)
}
