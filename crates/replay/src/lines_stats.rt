// Printed lines of the ground: the mean and the variance of the readings, the square root of each, a power of one.
use crate::cases::Case;
use crate::lines::Out;
use stats::Figure;

// The largest exponent.
const MOST_POWER: u32 = 11;

pub fn figure(out: &mut Out, form: &[u8], f: Figure) {
    match f.refusal.check() {
        Err(r) => out.refused(r),
        Ok(()) => out.form(form, &[], &[f.value]),
    }
}

pub fn roots(out: &mut Out, readings: &[f64]) {
    out.put(b"root");
    for x in readings {
        out.double(root::sqrt(*x));
    }
    out.put(b"\n");
}

pub fn power(out: &mut Out, case: &Case) {
    match case.readings {
        [x] if case.option <= MOST_POWER => {
            out.form(b"powi0\n", &[], &[float::power(*x, case.option)])
        }
        _ => out.bad_case(),
    }
}
