// Repeated measures: the table of subjects and conditions.
// Rows go by number: `chunks_exact` would ask that k is not 0.
#![tactic(auto)]

ghost use Rattle.std.specs.Prelude.{◌≡◌, ◌*◌, ◌<◌, ◌≤◌, length};
ghost use Rattle.base.specs.Limits.{most_subjects, most_conditions};
ghost use Rattle.base.specs.Lists.{part};
ghost use Rattle.repeated_grid.specs.Table.{subject_means, condition_means, no_table, table_of, rm_table};
ghost use Rattle.repeated_grid.specs.Inner.{row_added, column_sums};

// The means of n subjects and k conditions, and the sums of squares. Unused places are zero.
#[derive(Clone, Copy)]
pub struct RmTable {
    pub grand_mean: f64,
    pub subject_means: [f64; base::MOST_SUBJECTS],
    pub condition_means: [f64; base::MOST_CONDITIONS],
    pub ss_total: f64,
    pub ss_subjects: f64,
    pub ss_conditions: f64,
    pub ss_error: f64,
}

// n rows of k readings each, one after another.
#[derive(Clone, Copy)]
struct Grid<'a> {
    readings: &'a [f64],
    n: usize,
    k: usize,
    ghost subjects: { n ≤ most_subjects },
    ghost conditions: { k ≤ most_conditions },
    ghost all: { length readings.now ≡ n * k },
}

impl<'a> Grid<'a> {
    // The readings of subject i.
    #[tactic(auto, using(crate::proofs::Rows::row_part))]
    fn row(&self, i: usize) -> &'a [f64]
        requires { i < self.now.n }
        ensures { result.now ≡ part (i * self.now.k) self.now.k self.now.readings.now }
    {
        let at = i * self.k;
        &self.readings[at..at + self.k]
    }

    #[tactic(auto, using(base::proofs::Loops::step, base::proofs::Loops::ends), unfolding(crate::specs::Table::subject_means, base::specs::Lists::listed, crate::specs::Table::no_subjects))]
    fn subject_means(&self) -> [f64; base::MOST_SUBJECTS]
        ensures { result ≡ subject_means self.now.readings.now self.now.n self.now.k }
    {
        let mut out = [0.0; base::MOST_SUBJECTS];
        for i in 0..self.n {
            out[i] = float::canon(stats::sum(self.row(i)) / (self.k as f64));
        }
        out
    }

    // The sums of all conditions, in one walk over the readings: the sums do not wait for each other as they would one after another.
    #[tactic(auto, using(base::proofs::Loops::step, base::proofs::Loops::ends, crate::proofs::Rows::row_short, crate::proofs::Columns::added_length), unfolding(crate::specs::Inner::column_sums))]
    fn condition_sums(&self) -> [f64; base::MOST_CONDITIONS]
        ensures { result ≡ column_sums self.now.readings.now self.now.n self.now.k }
    {
        let mut sums = [-0.0; base::MOST_CONDITIONS];
        for i in 0..self.n {
            add_row(&mut sums, self.row(i));
        }
        sums
    }

    #[tactic(auto, using(base::proofs::Loops::step, base::proofs::Loops::ends, crate::proofs::Columns::column_sum, crate::proofs::Rows::fitting), unfolding(crate::specs::Table::condition_means, base::specs::Lists::listed, crate::specs::Table::no_conditions))]
    fn condition_means(&self) -> [f64; base::MOST_CONDITIONS]
        ensures { result ≡ condition_means self.now.readings.now self.now.n self.now.k }
    {
        let sums = self.condition_sums();
        let mut out = [0.0; base::MOST_CONDITIONS];
        for j in 0..self.k {
            out[j] = float::canon(sums[j] / (self.n as f64));
        }
        out
    }

    #[tactic(auto, unfolding(crate::specs::Table::ss_total, crate::specs::Table::ss_subjects, crate::specs::Table::ss_conditions))]
    fn table(&self) -> RmTable
        ensures { result ≡ table_of self.now.readings.now self.now.n self.now.k }
    {
        let n = self.n;
        let k = self.k;
        let grand_mean = stats::sum(self.readings) / ((n as f64) * (k as f64));
        let subject_means = self.subject_means();
        let condition_means = self.condition_means();
        let ss_total = stats::sq_dev(self.readings, grand_mean);
        let ss_subjects = (k as f64) * stats::sq_dev(&subject_means[..n], grand_mean);
        let ss_conditions = (n as f64) * stats::sq_dev(&condition_means[..k], grand_mean);
        RmTable {
            grand_mean: float::canon(grand_mean),
            subject_means,
            condition_means,
            ss_total,
            ss_subjects: float::canon(ss_subjects),
            ss_conditions: float::canon(ss_conditions),
            ss_error: float::canon(ss_total - ss_subjects - ss_conditions),
        }
    }
}

// A subject's readings, each added to its condition's sum.
#[tactic(auto, using(base::proofs::Loops::step, base::proofs::Loops::ends), unfolding(crate::specs::Inner::row_added))]
fn add_row(sums: &mut [f64], row: &[f64])
    requires { length row.now ≤ length sums.old }
    ensures { sums.new ≡ row_added row.now sums.old }
{
    for (j, x) in row.iter().enumerate() {
        sums[j] += x;
    }
}

// Zeros, which the clause of `rm_table` wants where the rows are not taken. A private function is enough: a `Default` would be public.
#[tactic(auto, unfolding(crate::specs::Table::no_subjects, crate::specs::Table::no_conditions))]
fn no_table() -> RmTable
    ensures { result ≡ no_table }
{
    RmTable {
        grand_mean: 0.0,
        subject_means: [0.0; base::MOST_SUBJECTS],
        condition_means: [0.0; base::MOST_CONDITIONS],
        ss_total: 0.0,
        ss_subjects: 0.0,
        ss_conditions: 0.0,
        ss_error: 0.0,
    }
}

// The table of n rows of k readings each, one after another. Nothing but zeros where there are over 64 rows, over 12 readings in a row, or not n * k readings.
#[tactic(auto, using(base::proofs::Bounds::product_le, base::proofs::Bounds::then_of, base::proofs::Bounds::else_of), unfolding(crate::specs::Table::rm_table))]
pub fn rm_table(readings: &[f64], n: usize, k: usize) -> RmTable
    ensures { result ≡ rm_table readings.now n k }
{
    if base::MOST_SUBJECTS < n || base::MOST_CONDITIONS < k || readings.len() != n * k {
        return no_table();
    }
    Grid { readings, n, k }.table()
}
