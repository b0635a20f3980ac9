// The normal equations. X'X is taken from the counts of the cells, X'y reading by reading.
// Where places are set from other places, loops go by number: of what `iter_mut().zip(..)` writes a proof knows the length alone. One loop calls a step by its number.
ghost use Rattle.std.specs.Prelude.{◌≡◌, ◌+◌, ◌*◌, ◌≤◌, ◌<◌, length};
ghost use Rattle.base.specs.Limits.{scratch_places};
ghost use Rattle.float.specs.Words.{◌⊗◌};
ghost use Rattle.twoway_normal.specs.Counted.{cells_of, counts_of, most_counts};
ghost use Rattle.twoway_normal.specs.Equations.{laid_system};
ghost use Rattle.twoway_normal.specs.Inner.{Fitting, CellAdded, CellsAdded, Kept, add_row, add_products, add_value, ValueSums, put_column};

use crate::codes::design_row;
use crate::counts::{MOST_COUNTS, cell_of, count_cells};
use crate::levels::Levels;

// Where the rows of codes of the cells are kept: behind the system.
const ROWS: usize = crate::SYSTEM;

// Row j of the equations gets n times the products of code j with all codes.
#[tactic(auto, using(base::proofs::Loops::step, base::proofs::Loops::ends, crate::proofs::Heads::first_here, crate::proofs::Heads::first_long), unfolding(crate::specs::Inner::add_row))]
fn add_row(x: &[f64], n: f64, w: usize, j: usize, m: &mut [f64])
    requires { (j < length x.now) × (w ≤ length x.now) × (j * w + w ≤ length m.old) }
    ensures { m.new ≡ add_row w n x.now j m.old }
{
    let f = n * x[j];
    let p = j * w;
    for (k, code) in x[..w].iter().enumerate() {
        m[p + k] += f * code;
    }
}

#[tactic(auto, using(base::proofs::Bounds::row_end, base::proofs::Loops::step, base::proofs::Loops::ends), unfolding(crate::specs::Inner::add_products))]
fn add_products(x: &[f64], n: f64, p: usize, w: usize, m: &mut [f64])
    requires { (p ≤ length x.now) × (w ≤ length x.now) × (p * w ≤ length m.old) }
    ensures { m.new ≡ add_products p w n x.now m.old }
{
    for j in 0..p {
        add_row(x, n, w, j, m);
    }
}

// The cell c has n readings: its products are added, and its row of codes is kept. A cell without readings is passed over.
#[tactic(auto, using(crate::proofs::Built::row_length, crate::proofs::Keeping::Room, crate::proofs::Keeping::rows_room, crate::proofs::Keeping::cell_room, crate::proofs::Keeping::passed_over, crate::proofs::Keeping::cell_lent), unfolding(crate::specs::Counted::cell_row))]
fn add_cell(levels: Levels, c: usize, n: u32, work: &mut [f64; base::SCRATCH_PLACES])
    requires { c < cells_of levels.a levels.b }
    ensures { CellAdded levels.a levels.b c n work.old work.new }
{
    if n == 0 {
        return;
    }
    let p = levels.a * levels.b;
    let x = design_row(levels, c / (levels.b + 1), c % (levels.b + 1), 0.0);
    add_products(&x, n as f64, p, p + 1, &mut work[0..p * (p + 1)]);
    let q = ROWS + c * p;
    lent::put(&mut work[q..q + p], &x[0..p]);
}

// All cells.
#[tactic(auto, using(base::proofs::Loops::step, base::proofs::Loops::ends, crate::proofs::Coded::cells_few, crate::proofs::Keeping::rows_room, crate::proofs::Keeping::kept_next, crate::proofs::Keeping::aside_none, crate::proofs::Keeping::aside_then, crate::proofs::Keeping::aside_cell), unfolding(crate::specs::Inner::add_cells))]
fn add_cells(levels: Levels, counts: &[u32; MOST_COUNTS], work: &mut [f64; base::SCRATCH_PLACES])
    ensures { CellsAdded levels.a levels.b counts.now work.old work.new }
{
    let cells = (levels.a + 1) * (levels.b + 1);
    for (c, n) in counts[..cells].iter().enumerate() {
        add_cell(levels, c, *n, work);
    }
}

// The product of a code and a value. It is taken of a zero too: zero times infinity is a NaN.
fn product(code: f64, y: f64) -> f64
    ensures { result ≡ code ⊗ y }
{
    code * y
}

// The codes from place q on, each times y, are added to p sums: the definition `add_value` takes q and p too.
#[tactic(auto, using(base::proofs::Loops::step, base::proofs::Loops::ends, crate::proofs::Heads::part_here, crate::proofs::Heads::part_long), unfolding(crate::specs::Inner::add_value))]
fn add_value(rows: &[f64], q: usize, p: usize, y: f64, sums: &mut [f64])
    requires { (q + p ≤ length rows.now) × (p ≤ length sums.old) }
    ensures { sums.new ≡ add_value q p rows.now y sums.old }
{
    for (j, code) in rows[q..q + p].iter().enumerate() {
        sums[j] += product(*code, y);
    }
}

// X'y, over the readings in their order.
#[tactic(auto, using(std::proofs::lemmas::List::nil_from_length, std::proofs::lemmas::Slice::Zip::either_empty_from_Zip, base::proofs::Loops::step, base::proofs::Loops::ends, base::proofs::Rests::first_left, base::proofs::Rests::over_at, crate::proofs::Coded::row_within, crate::proofs::Readings::add_reading, crate::proofs::Readings::values_walk, crate::proofs::Sizes::cells_most), unfolding(lent::specs::Wiping::zeros))]
fn value_sums(
    values: &[f64],
    factor_a: &[u32],
    factor_b: &[u32],
    levels: Levels,
    rows: &[f64],
) -> [f64; base::MOST_CELLS]
    requires { Fitting values.now factor_a.now factor_b.now levels.a levels.b × (length rows.now ≡ cells_of levels.a levels.b * (levels.a * levels.b)) × Kept levels.a levels.b (counts_of factor_a.now factor_b.now levels.a levels.b) 0 (cells_of levels.a levels.b) rows.now }
    ensures { ValueSums values.now factor_a.now factor_b.now levels.a levels.b result }
{
    let p = levels.a * levels.b;
    let mut sums = [0.0; base::MOST_CELLS];
    for ((y, u), v) in values.iter().zip(factor_a).zip(factor_b) {
        let c = cell_of(levels, *u, *v);
        add_value(rows, c * p, p, *y, &mut sums);
    }
    sums
}

// The sums come behind the rows of X'X. X'X has no NaN, and a NaN of a sum is made canonical.
#[tactic(auto, using(base::proofs::Bounds::row_end, base::proofs::Loops::step, base::proofs::Loops::ends, crate::proofs::Heads::first_here, crate::proofs::Heads::first_long), unfolding(crate::specs::Inner::put_column))]
fn put_column(sums: &[f64], p: usize, m: &mut [f64])
    requires { (p ≤ length sums.now) × (p * (p + 1) ≤ length m.old) }
    ensures { m.new ≡ put_column p sums.now m.old }
{
    for (j, sum) in sums[..p].iter().enumerate() {
        m[j * (p + 1) + p] = float::canon(*sum);
    }
}

// X'X and, behind each of its rows, that of X'y, in the first places. The rows of codes of the cells lie behind them until the values are added.
#[tactic(auto, using(crate::proofs::Coded::cells_few, crate::proofs::Keeping::Room, crate::proofs::Keeping::rows_room, crate::proofs::Keeping::kept_lent, crate::proofs::Keeping::system_lent))]
pub fn normal_system(
    values: &[f64],
    factor_a: &[u32],
    factor_b: &[u32],
    a: usize,
    b: usize,
    work: &mut [f64; base::SCRATCH_PLACES],
)
    requires { Fitting values.now factor_a.now factor_b.now a b }
    ensures { work.new ≡ laid_system values.now factor_a.now factor_b.now a b work.old }
{
    let levels = Levels { a, b };
    let p = levels.a * levels.b;
    let z = p * (p + 1);
    let end = ROWS + (a + 1) * (b + 1) * p;
    lent::wipe(&mut work[0..z]);
    let counts = count_cells(factor_a, factor_b, levels);
    add_cells(levels, &counts, work);
    let sums = value_sums(values, factor_a, factor_b, levels, &work[ROWS..end]);
    put_column(&sums, p, &mut work[0..z]);
    lent::wipe(&mut work[ROWS..end]);
}
