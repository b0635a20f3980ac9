// Printed lines of sheets that are edited, their rows and places, and their reports. The sheet is loaded, or written down field by field.
use crate::cases::Case;
use crate::lines::Out;
use crate::lines_oneway;
use oneway::AnovaKind;
use oneway_rows::Row;
use sheet::{Edit, Sheet};

// The first readings are loaded, as many as the option says; those behind them are the new readings of the edits. With `levene` there is Levene's report too.
// `levene` chooses what is printed, and no step of the edits.
pub fn sheet(out: &mut Out, case: &Case, levene: bool) {
    let n = (case.option as usize).min(case.readings.len());
    let (loaded, new) = case.readings.split_at(n);
    let e = Sheet::load(loaded, case.sizes);
    if let Err(r) = e.refusal.check() {
        return out.refused(r);
    }
    out.form(b"sheetA\n", &[case.sizes.len() as u64], &[]);
    let left = edited(out, e.sheet, case.a, new);
    let used = left.report(AnovaKind::Fisher).n_total as usize;
    lines_of(out, left, left.groups, used);
    if levene {
        lines_oneway::report(out, AnovaKind::Levene, left.report(AnovaKind::Levene));
    }
}

// What an edit does.
#[derive(Clone, Copy)]
enum Op {
    Replace,
    Append,
    Remove,
}

// 1 replaces, 2 appends, and any other number removes.
impl From<u32> for Op {
    fn from(number: u32) -> Op {
        match number {
            1 => Op::Replace,
            2 => Op::Append,
            _ => Op::Remove,
        }
    }
}

// The edits in their order, a line for each. An edit is three numbers; one that is not whole is passed over. All but a removal take a new reading, +0.0 where there is none left.
fn edited(out: &mut Out, s: Sheet, edits: &[u32], new: &[f64]) -> Sheet {
    let mut sheet = s;
    let mut left = new;
    for edit in edits.chunks_exact(3) {
        let op = Op::from(edit[0]);
        let x = left.first().copied().unwrap_or(0.0);
        let e = call(sheet, op, edit[1] as usize, edit[2] as usize, x);
        out.verdict(b"editABC\n", e.refusal);
        sheet = e.sheet;
        if let (Op::Replace | Op::Append, [_, behind @ ..]) = (op, left) {
            left = behind;
        }
    }
    sheet
}

fn call(s: Sheet, op: Op, group: usize, place: usize, x: f64) -> Edit {
    match op {
        Op::Replace => s.replace(group, place, x),
        Op::Append => s.append(group, x),
        Op::Remove => s.remove(group, place),
    }
}

// So many rows, so many places, and the reports of Fisher's and Welch's kind.
fn lines_of(out: &mut Out, s: Sheet, groups: usize, readings: usize) {
    if let Some(rows) = s.rows.get(..groups) {
        for row in rows {
            out.form(b"rowA01\n", &[row.size as u64], &[row.mean, row.sq_dev]);
        }
    }
    out.firsts(b"places@\n", readings, &s.places);
    lines_oneway::report(out, AnovaKind::Fisher, s.report(AnovaKind::Fisher));
    lines_oneway::report(out, AnovaKind::Welch, s.report(AnovaKind::Welch));
}

// A sheet that is not from load. The option is the number of its groups. The sizes are those of the first rows. The first readings are
// the 16 means, then the 16 sums of squared deviations; then come as many places as the one code of B says, and behind them the edits' new readings.
pub fn written(out: &mut Out, case: &Case) {
    let Some((s, new)) = held(case) else {
        return out.bad_case();
    };
    out.form(b"sheetA\n", &[case.option as u64], &[]);
    let left = edited(out, s, case.a, new);
    lines_of(out, left, Sheet::ROWS, used(&left.places));
}

// The sheet that a case writes down, and the readings behind it; none where it does not write one.
fn held<'a>(case: &Case<'a>) -> Option<(Sheet, &'a [f64])> {
    let [code] = case.b else {
        return None;
    };
    let n = *code as usize;
    if Sheet::ROWS < case.sizes.len() || Sheet::PLACES < n || case.readings.len() < ABOVE + n {
        return None;
    }
    let (above, behind) = case.readings.split_at(ABOVE);
    let (places, new) = behind.split_at(n);
    let mut s = Sheet {
        places: [0.0; Sheet::PLACES],
        rows: std::array::from_fn(|g| Row {
            size: case.sizes.get(g).copied().unwrap_or(0),
            mean: above[g],
            sq_dev: above[Sheet::ROWS + g],
        }),
        groups: case.option as usize,
    };
    s.places[..n].copy_from_slice(places);
    Some((s, new))
}

// The means and the sums stand before the places.
const ABOVE: usize = 2 * Sheet::ROWS;

// The places up to the last whose bits are not those of +0.0.
fn used(places: &[f64]) -> usize {
    let held = |x: &f64| float::bits_of(*x) != 0;
    places.iter().rposition(held).map_or(0, |last| last + 1)
}
