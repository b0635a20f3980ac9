// The checks before an edit, and where a group's readings lie. They borrow the sheet: its rows and their number do not travel apart.
ghost use Rattle.std.specs.Prelude.{◌≡◌, ◌≤◌, ◌<◌, ◌+◌, length, take};
ghost use Rattle.base.specs.Limits.{most_groups};
ghost use Rattle.std.specs.List.{sum_by};
ghost use Rattle.base.specs.Refusals.{◌or_else◌, verdict};
ghost use Rattle.oneway_rows.specs.Soundness.{sound_refusal};
ghost use Rattle.oneway_rows.specs.Inner.{size_of};
ghost use Rattle.sheet.specs.Calls.{Call, no_place, refusal_of};
ghost use Rattle.sheet.specs.Sheets.{sizes_of};
ghost use Rattle.sheet.specs.Inner.{used_in};

use crate::Sheet;
use base::Refusal;
use oneway_rows::Row;

// One reading more than there are places for.
const OVER: usize = Sheet::PLACES + 1;

// How many readings these rows stand for, as a place: no sum of oneway is public.
fn readings_of(rows: &[Row]) -> usize
    requires { length rows.now ≤ most_groups }
    ensures { result ≡ sum_by size_of rows.now }
{
    rows.iter().map(|row| row.size as usize).sum()
}

// How many readings lie ahead of group n, which is where its own begin.
pub fn ahead(sheet: &Sheet, n: usize) -> usize
    requires { n ≤ most_groups }
    ensures { result ≡ sum_by size_of (take n sheet.now.rows) }
{
    readings_of(&sheet.rows[..n])
}

// Where the readings of group g begin and end.
pub fn span(sheet: &Sheet, g: usize) -> (usize, usize)
    requires { g < most_groups }
    ensures { result ≡ (sum_by size_of (take g sheet.now.rows), sum_by size_of (take (g + 1) sheet.now.rows)) }
{
    (ahead(sheet, g), ahead(sheet, g + 1))
}

// How many readings the sheet has; none where its rows are not sound.
#[tactic(auto, using(base::proofs::Order::passed_answer, base::proofs::Order::refused_answer, base::proofs::Order::was_passed, base::proofs::Order::was_refused, oneway_rows::proofs::Counted::sound, oneway_rows::proofs::Counted::sizes_added), unfolding(crate::specs::Inner::used_in))]
pub fn used(sheet: &Sheet) -> usize
    ensures { result ≡ used_in sheet.now.groups sheet.now.rows }
{
    match oneway_rows::sound::rows_refusal(sheet.rows, sheet.groups) {
        Ok(()) => ahead(sheet, sheet.groups),
        Err(_) => 0,
    }
}

// Unsound rows, or no such group or place.
#[tactic(auto, using(base::proofs::Order::asks_next, base::proofs::Order::was_passed, oneway_rows::proofs::Counted::sound, crate::proofs::Judged::has_place))]
fn place_refusal(sheet: &Sheet, group: usize, place: usize) -> Result<(), Refusal>
    ensures { result ≡ verdict (sound_refusal sheet.now.groups sheet.now.rows or_else no_place group place (sizes_of sheet.now)) }
{
    oneway_rows::sound::rows_refusal(sheet.rows, sheet.groups)?;
    if sheet.groups <= group || sheet.rows[group].size as usize <= place {
        return Err(Refusal::new(14, group as u64, place as u64));
    }
    Ok(())
}

#[tactic(auto, using(base::proofs::Order::ends_there, base::proofs::Order::asks_next, base::proofs::Order::was_passed, crate::proofs::Judged::replace_order, crate::proofs::Judged::opened_first))]
pub fn replace_refusal(sheet: &Sheet, group: usize, place: usize, x: f64) -> Result<(), Refusal>
    ensures { result ≡ verdict (refusal_of (Call.Replace group place x) sheet.now.groups sheet.now.rows) }
{
    place_refusal(sheet, group, place)?;
    if x.is_nan() {
        return Err(Refusal::new(4, (group + 1) as u64, 0));
    }
    Ok(())
}

#[tactic(auto, using(crate::proofs::Judged::append_full, base::proofs::Order::ends_there, base::proofs::Order::asks_next, base::proofs::Order::was_passed, oneway_rows::proofs::Counted::sizes_added, crate::proofs::Judged::append_order, crate::proofs::Judged::asked))]
pub fn append_refusal(sheet: &Sheet, group: usize, x: f64) -> Result<(), Refusal>
    ensures { result ≡ verdict (refusal_of (Call.Append group x) sheet.now.groups sheet.now.rows) }
{
    replace_refusal(sheet, group, 0, x)?;
    if Sheet::PLACES <= ahead(sheet, sheet.groups) {
        return Err(Refusal::new(11, 2, OVER as u64));
    }
    Ok(())
}

#[tactic(auto, using(base::proofs::Order::ends_there, base::proofs::Order::asks_next, base::proofs::Order::was_passed, oneway_rows::proofs::Counted::size_at, crate::proofs::Judged::remove_order, crate::proofs::Judged::opened_first))]
pub fn remove_refusal(sheet: &Sheet, group: usize, place: usize) -> Result<(), Refusal>
    ensures { result ≡ verdict (refusal_of (Call.Remove group place) sheet.now.groups sheet.now.rows) }
{
    place_refusal(sheet, group, place)?;
    if sheet.rows[group].size as usize <= base::FEWEST_READINGS {
        return Err(Refusal::new(2, base::FEWEST_READINGS as u64, 1));
    }
    Ok(())
}
