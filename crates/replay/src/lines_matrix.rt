// Printed lines of matrices. Where the option is out of range or the number of readings does not fit it, the line is `bad case`.
ghost use Rattle.std.specs.Prelude.{◌≡◌, ◌<◌, ◌≤◌, ◌+◌, ◌*◌, length, IfSome};

use crate::cases::Case;
use crate::lines::Out;
use base::MOST_CONDITIONS;
use matrix_linear::Elimination;
use matrix_places::{MOST_CONTRASTS, SQUARE};

// The most rows of a system, whose right side is a column more, and of an inverse, which stands beside its matrix.
const MOST_SYSTEM: usize = 23;

const MOST_INVERSE: usize = 24;

const LONG: usize = MOST_INVERSE * 2 * MOST_INVERSE;

const ORTHONORMAL: usize = MOST_CONTRASTS * MOST_CONDITIONS;

// The number of rows n that the option says, where it is at most `most` and n rows of n + extra places are as many as the readings.
fn side(case: &Case, most: usize, extra: usize) -> Option<usize>
    requires { (most ≤ 24) × (extra ≤ 1) }
    ensures { IfSome result (λ n. (0 < n) × (n ≤ most) × (length case.now.readings.now ≡ n * (n + extra))) }
{
    let n = case.option as usize;
    ((1..=most).contains(&n) && case.readings.len() == n * (n + extra)).then_some(n)
}

// As many numbers as both have.
fn copy(to: &mut [f64], from: &[f64]) {
    let n = to.len().min(from.len());
    to[..n].copy_from_slice(&from[..n]);
}

// The part from column n on of each of n rows of w places.
fn right(out: &mut Out, name: &[u8], m: &[f64], n: usize, w: usize)
    requires { (0 < w) × (n ≤ w) }
{
    out.put(name);
    for row in m.chunks_exact(w).take(n) {
        out.each(&row[n..]);
    }
    out.put(b"\n");
}

pub fn solve(out: &mut Out, case: &Case, skips: bool) {
    let Some(n) = side(case, MOST_SYSTEM, 1) else {
        return out.bad_case();
    };
    let mut m = [0.0; LONG];
    let (matrix, sides) = case.readings.split_at(n * n);
    for ((row, given), y) in m
        .chunks_exact_mut(n + 1)
        .zip(matrix.chunks_exact(n))
        .zip(sides)
    {
        copy(row, given);
        if let Some(last) = row.last_mut() {
            *last = *y;
        }
    }
    let e = matrix_linear::solve_linear_system(&mut m, n);
    right(out, b"solve", &m, n, n + 1);
    skipped(out, skips, e);
}

pub fn inverse(out: &mut Out, case: &Case, skips: bool) {
    let Some(n) = side(case, MOST_INVERSE, 0) else {
        return out.bad_case();
    };
    let mut m = [0.0; LONG];
    for (row, given) in m.chunks_exact_mut(2 * n).zip(case.readings.chunks_exact(n)) {
        copy(row, given);
    }
    let e = matrix_linear::matrix_inverse(&mut m, n);
    right(out, b"inverse", &m, n, 2 * n);
    skipped(out, skips, e);
}

// How many columns were skipped, where it is asked for. `skips` chooses what is printed, and no step that runs.
fn skipped(out: &mut Out, skips: bool, e: Elimination) {
    if skips {
        out.form(b"skippedA\n", &[e.skipped as u64], &[]);
    }
}

pub fn determinant(out: &mut Out, case: &Case) {
    let Some(n) = side(case, MOST_CONTRASTS, 0) else {
        return out.bad_case();
    };
    let mut m = [0.0; LONG];
    copy(&mut m, case.readings);
    let d = matrix_linear::matrix_determinant(&mut m, n);
    out.form(b"determinant0\n", &[], &[d]);
}

pub fn eigenvalues(out: &mut Out, case: &Case) {
    let Some(n) = side(case, MOST_CONTRASTS, 0) else {
        return out.bad_case();
    };
    let mut m = [0.0; SQUARE];
    let mut values = [0.0; MOST_CONTRASTS];
    copy(&mut m, case.readings);
    matrix_eigen::compute_eigenvalues(&mut m, n, &mut values);
    out.firsts(b"eigenvalues@\n", n, &values);
}

// Q by rows, then R by rows. The option is the number of rows.
pub fn qr(out: &mut Out, case: &Case) {
    let Some(n) = side(case, MOST_CONTRASTS, 0) else {
        return out.bad_case();
    };
    let mut q = [0.0; SQUARE];
    let mut r = [0.0; SQUARE];
    matrix_eigen::qr_decomposition(case.readings, n, &mut q, &mut r);
    out.firsts(b"qr@", n * n, &q);
    out.firsts(b"@\n", n * n, &r);
}

// The option is 16 p + k, for p rows of k places.
pub fn orthonormalize(out: &mut Out, case: &Case) {
    let p = (case.option / 16) as usize;
    let k = (case.option % 16) as usize;
    let count = case.readings.len();
    if count == 0 || p > MOST_CONTRASTS || k > MOST_CONDITIONS || count != p * k {
        return out.bad_case();
    }
    let mut c = [0.0; ORTHONORMAL];
    copy(&mut c, case.readings);
    matrix_orthonormal::orthonormalize(&mut c, p, k);
    out.firsts(b"orthonormalize@\n", count, &c);
}
