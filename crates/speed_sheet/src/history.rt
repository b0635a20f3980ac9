// A history of edits with a report after each.
ghost use Rattle.std.specs.Prelude.{◌≡◌, get_or};
ghost use Rattle.sheet.specs.Calls.{called};
ghost use Rattle.speed_sheet.specs.Histories.{call_with, reports_of, history_of};

use oneway::AnovaKind;
use sheet::Sheet;

// One edit: 1 replaces, 2 appends, and any other number removes. It stands here since C hands over a number, and the sheet promises nothing of numbers.
#[tactic(auto, using(crate::proofs::Turns::replaces, crate::proofs::Turns::appends, crate::proofs::Turns::removes))]
fn edited(s: Sheet, op: u32, group: usize, place: usize, x: f64) -> Sheet
    ensures { result ≡ called s (call_with op group place x) }
{
    // The sheet is taken behind the match. Taken in each arm, memory was wiped for it first, and a history took a tenth longer.
    let e = match op {
        1 => s.replace(group, place, x),
        2 => s.append(group, x),
        _ => s.remove(group, place),
    };
    e.sheet
}

// What a list holds at a place; `none` where it is missing.
fn held<T: Copy>(list: &[T], i: usize, none: T) -> T
    ensures { result ≡ get_or list.now i none }
{
    list.get(i).copied().unwrap_or(none)
}

// An edit for each place of `out`, and there the F of the report after it.
#[tactic(auto, using(crate::proofs::Turns::turned, base::proofs::Loops::step, base::proofs::Loops::ends), unfolding(crate::specs::Histories::reports_of))]
fn reports(s: Sheet, edits: &[u32], fresh: &[f64], out: &mut [f64], kind: AnovaKind)
    ensures { out.new ≡ reports_of kind edits.now fresh.now s out.old }
{
    let mut sheet = s;
    // The three numbers of an edit by their number: one that is missing counts as 0.
    for (i, place) in out.iter_mut().enumerate() {
        sheet = edited(
            sheet,
            held(edits, 3 * i, 0),
            held(edits, 3 * i + 1, 0) as usize,
            held(edits, 3 * i + 2, 0) as usize,
            held(fresh, i, 0.0),
        );
        *place = sheet.report(kind).statistic;
    }
}

// 0 and the F of each report, or the number of the load's refusal and `out` as it was.
#[tactic(auto, using(base::proofs::Order::was_passed, base::proofs::Order::was_refused, crate::proofs::Turns::edited_on, crate::proofs::Turns::not_loaded), unfolding(crate::specs::Histories::history_of))]
pub fn history(
    readings: &[f64],
    sizes: &[u32],
    edits: &[u32],
    fresh: &[f64],
    out: &mut [f64],
    kind: AnovaKind,
) -> u32
    ensures { (out.new, result) ≡ history_of kind readings.now sizes.now edits.now fresh.now out.old }
{
    let loaded = Sheet::load(readings, sizes);
    // C gets the refusal's number.
    if let Err(refusal) = loaded.refusal.check() {
        return refusal.number;
    }
    reports(loaded.sheet, edits, fresh, out, kind);
    0
}
