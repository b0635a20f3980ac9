// The sheet: one-way data that is edited. A bench that repeats one reading edits it, and the sheet is again the one that a fresh load would give.
#![tactic(auto)]

mod checks;
mod places;

ghost use Rattle.std.specs.Prelude.{◌≡◌};
ghost use Rattle.oneway_rows.specs.Rows.{empty_row};
ghost use Rattle.sheet.specs.Calls.{Call, call_of, load_of, report_of};

use base::Refusal;
use oneway::AnovaKind;
use oneway_rows::Row;
use results::OneWayAnovaResult;

// The groups' readings one after another, a row for each group, and zeros behind both. The only count beside the rows' sizes is that of the groups.
// Memory is fixed and nothing is on a heap: the arrays have their counts beside them.
#[derive(Clone, Copy)]
pub struct Sheet {
    pub places: [f64; Sheet::PLACES],
    pub rows: [Row; Sheet::ROWS],
    pub groups: usize,
}

// What a call says, and the sheet after it: where it is refused, the sheet as it was. Document 01 fixes this record, with the refusal beside the sheet.
#[derive(Clone, Copy)]
pub struct Edit {
    pub refusal: Refusal,
    pub sheet: Sheet,
}

impl Sheet {
    pub const PLACES: usize = base::MOST_READINGS;

    pub const ROWS: usize = base::MOST_GROUPS;

    // The row of no group, which stands behind the groups' rows: `Row::empty` again. It stays: it is public, with its clause and the edits `Sheet.empty_row--..`.
    pub fn empty_row() -> Row
        ensures { result ≡ empty_row }
    {
        Row::empty()
    }

    // Readings and sizes are two slices, as document 01 has them.
    // The sheet of groups that pass one-way's checks; the zero sheet where they do not.
    #[tactic(auto, using(crate::proofs::Loaded::load_refused, crate::proofs::Loaded::load_made), unfolding(crate::specs::Sheets::zero_places))]
    pub fn load(readings: &[f64], sizes: &[u32]) -> Edit
        ensures { result ≡ load_of readings.now sizes.now }
    {
        let stats = oneway_rows::validate_anova_groups(readings, sizes);
        let rows = stats.rows;
        let mut places = [0.0; Sheet::PLACES];
        if let Err(refusal) = stats.refusal.check() {
            let zero = Sheet {
                places,
                rows,
                groups: 0,
            };
            return Edit {
                refusal,
                sheet: zero,
            };
        }
        lent::put(&mut places, readings);
        let loaded = Sheet {
            places,
            rows,
            groups: sizes.len(),
        };
        Edit {
            refusal: Refusal::none(),
            sheet: loaded,
        }
    }

    // Each edit writes its answer out: the edits `Sheet.replace--..`, `Sheet.append--..` and `Sheet.remove--..` change single lines of it.
    // x in place of a reading.
    #[tactic(auto, using(base::proofs::Order::was_passed, crate::proofs::Made::edit_refused, crate::proofs::Made::replace_told, crate::proofs::Made::begins, crate::proofs::Made::finishes, crate::proofs::Made::spot, crate::proofs::Made::replace_made))]
    pub fn replace(self, group: usize, place: usize, x: f64) -> Edit
        ensures { result ≡ call_of (Call.Replace group place x) self }
    {
        if let Err(refusal) = checks::replace_refusal(&self, group, place, x) {
            return Edit {
                refusal,
                sheet: self,
            };
        }
        let (at, end) = checks::span(&self, group);
        let mut replaced = self;
        replaced.places[at + place] = x;
        replaced.rows[group] = Row::of(&replaced.places[at..end]);
        Edit {
            refusal: Refusal::none(),
            sheet: replaced,
        }
    }

    // x at the group's end.
    #[tactic(auto, using(base::proofs::Order::was_passed, crate::proofs::Made::edit_refused, crate::proofs::Made::append_told, crate::proofs::Made::begins, crate::proofs::Made::finishes, crate::proofs::Made::spot, crate::proofs::Made::uses, crate::proofs::Made::append_made))]
    pub fn append(self, group: usize, x: f64) -> Edit
        ensures { result ≡ call_of (Call.Append group x) self }
    {
        if let Err(refusal) = checks::append_refusal(&self, group, x) {
            return Edit {
                refusal,
                sheet: self,
            };
        }
        let (at, end) = checks::span(&self, group);
        let used = checks::ahead(&self, self.groups);
        let mut appended = self;
        places::insert(&mut appended.places, end, used, x);
        appended.rows[group] = Row::of(&appended.places[at..end + 1]);
        Edit {
            refusal: Refusal::none(),
            sheet: appended,
        }
    }

    // A reading less.
    #[tactic(auto, using(base::proofs::Order::was_passed, crate::proofs::Made::edit_refused, crate::proofs::Made::remove_told, crate::proofs::Made::begins, crate::proofs::Made::finishes, crate::proofs::Made::spot, crate::proofs::Made::uses, crate::proofs::Made::remove_made))]
    pub fn remove(self, group: usize, place: usize) -> Edit
        ensures { result ≡ call_of (Call.Remove group place) self }
    {
        if let Err(refusal) = checks::remove_refusal(&self, group, place) {
            return Edit {
                refusal,
                sheet: self,
            };
        }
        let (at, end) = checks::span(&self, group);
        let used = checks::ahead(&self, self.groups);
        let mut removed = self;
        places::delete(&mut removed.places, at + place, used);
        removed.rows[group] = Row::of(&removed.places[at..end - 1]);
        Edit {
            refusal: Refusal::none(),
            sheet: removed,
        }
    }

    // Fisher's, Welch's or Levene's analysis of the sheet, from its rows as they stand.
    #[tactic(auto, using(crate::proofs::Reported::report_fits, crate::proofs::Reported::report_made))]
    pub fn report(self, kind: AnovaKind) -> OneWayAnovaResult
        ensures { result ≡ report_of kind self }
    {
        let used = checks::used(&self);
        oneway::report(self.rows, self.groups, &self.places[..used], kind)
    }
}
