// What every other crate stands on: how a call refuses, document 01's limits, and the check of sizes beside flat readings.
// Readings and sizes are two slices, as document 01 has them: refusal 10 tells their sums.
#![tactic(auto)]

ghost use Rattle.std.specs.Prelude.{◌≡◌, ◌-◌, take, ℕ, List, Float};
ghost use Rattle.base.specs.Lists.{total, cut};
ghost use Rattle.base.specs.Refusals.{none, refuse, verdict, first_fault};
ghost use Rattle.base.specs.Sizes.{sizes_refusal};

// Document 01, "Capacities".
pub const MOST_READINGS: usize = 512;

pub const MOST_GROUPS: usize = 16;

pub const MOST_LEVELS: usize = 6;

pub const MOST_CELLS: usize = 36;

pub const MOST_SUBJECTS: usize = 64;

pub const MOST_CONDITIONS: usize = 12;

pub const SCRATCH_PLACES: usize = 6400;

// The fewest groups of an analysis, and the fewest readings of a group.
pub const FEWEST_GROUPS: usize = 2;

pub const FEWEST_READINGS: usize = 2;

// A refusal's number in document 01's table, and its two details; number 0 is no refusal. It is no enum: document 01 fixes numbers and details, and the edits `Refusal.new--..` and
// `Refusal.none--..` change them. What a check hands back is a `Result`. The numbers stand as they are in document 01's table and in the definitions: the three are read side by side.
// The details have 64 bits: the code 4294967295 is 4294967296 levels.
#[derive(Clone, Copy)]
pub struct Refusal {
    pub number: u32,
    pub first: u64,
    pub second: u64,
}

impl Refusal {
    pub fn none() -> Refusal
        ensures { result ≡ none }
    {
        Refusal {
            number: 0,
            first: 0,
            second: 0,
        }
    }

    pub fn new(number: u32, first: u64, second: u64) -> Refusal
        ensures { result ≡ refuse number first second }
    {
        Refusal {
            number,
            first,
            second,
        }
    }

    // What a check hands back that met this refusal: `Ok` where it is none.
    pub fn check(self) -> Result<(), Refusal>
        ensures { result ≡ verdict self }
    {
        if self.number == 0 { Ok(()) } else { Err(self) }
    }
}

// a - b, and 0 where b is the larger: so a formula with `k - 1` in it asks nothing of its caller. It is public, with the edits `minus--..`.
pub fn minus(a: u32, b: u32) -> u32
    ensures { result ≡ a - b }
{
    a.saturating_sub(b)
}

// No chain: `sum` asks that the sum fits, and 32 bits of places times 32 bits of each are a product, which the search does not find.
// The sum of the first n sizes, or of all where there are fewer. The sizes and n have 32 bits, so 64 cannot wrap.
#[tactic(auto, unfolding(crate::specs::Lists::total))]
pub fn total_of(sizes: &[u32], n: u32) -> u64
    ensures { result ≡ total (take n sizes.now) }
{
    let k = sizes.len().min(n as usize);
    let mut t = 0;
    for size in &sizes[..k] {
        t += *size as u64;
    }
    t
}

// Sizes beside n readings: more rows than `most`, which is the capacity number `which`; too many readings; sizes that do not add up.
#[tactic(auto, unfolding(crate::specs::Sizes::sizes_refusal))]
pub fn sizes_refusal(n: usize, sizes: &[u32], most: u32, which: u64) -> Result<(), Refusal>
    ensures { result ≡ verdict (sizes_refusal most which n sizes.now) }
{
    if (most as usize) < sizes.len() {
        return Err(Refusal::new(11, which, sizes.len() as u64));
    }
    if MOST_READINGS < n {
        return Err(Refusal::new(11, 2, n as u64));
    }
    let needed = total_of(sizes, most);
    if needed != n as u64 {
        return Err(Refusal::new(10, needed, n as u64));
    }
    Ok(())
}

// What a check asks of a group of readings with this number: its fault, or none.
// It is a trait and no closure: of a closure the search would have to ask that it may be called, and no public function asks anything.
pub trait Check {
    ghost use Rattle.base.specs.declared.Refusal.{Refusal};

    ghost fault: { Self → ℕ → List Float → Refusal };

    fn ask(&self, number: u64, group: &[f64]) -> Result<(), Refusal>
        ensures { result ≡ verdict (fault self.now number group.now) };
}

// The first fault of the groups that lie one after another in `readings`, as many in each as `sizes` says. Each group is asked with its number, counted from 1.
// Where the readings give out, the groups from there on have fewer, or none.
// `put_rows` of oneway_rows and `put_means` of oneway walk so too: one walk for all would take an `FnMut`, and each caller would have to say what it does to the memory that the closure holds.
#[tactic(auto, using(std::proofs::lemmas::List::take_min, std::proofs::lemmas::List::drop_min, crate::proofs::Searches::found_here, crate::proofs::Searches::found_later, crate::proofs::Searches::none_left_over))]
pub fn first_fault<C: Check>(readings: &[f64], sizes: &[u32], check: &C) -> Result<(), Refusal>
    ensures { result ≡ verdict (first_fault (C.fault check.now) 1 (cut sizes.now readings.now)) }
{
    let mut rest = readings;
    for (g, size) in sizes.iter().enumerate() {
        let (group, behind) = rest.split_at((*size as usize).min(rest.len()));
        check.ask(g as u64 + 1, group)?;
        rest = behind;
    }
    Ok(())
}
