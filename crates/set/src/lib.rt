// The reading set: one-way data as bytes. First the contents, the group count and each group's size in two bytes; then the readings, eight bytes each. All little endian.
// Where places are set from other places, the place is set by its number: of what `iter_mut().zip(..)` writes a proof knows the length alone.
#![tactic(auto)]

ghost use Rattle.std.specs.Prelude.{◌≡◌, map, ◌≤◌, ◌*◌, length};
ghost use Rattle.base.specs.Limits.{most_groups, most_readings};
ghost use Rattle.base.specs.Lists.{words};
ghost use Rattle.set.specs.Bytes.{little, reading, bytes};
ghost use Rattle.set.specs.Sets.{read_set, set_anova};
ghost use Rattle.set.specs.Inner.{contents_of, body_of};

use base::Refusal;
use oneway::AnovaKind;
use results::OneWayAnovaResult;

// How long a set can be: the count, as many sizes as there can be groups, and as many readings as a call takes.
pub const LONGEST: usize = 2 + base::MOST_GROUPS * 2 + base::MOST_READINGS * 8;

// A set that was read: its sizes and its readings, and zeros behind them.
// Memory is fixed and nothing is on a heap: the arrays have their counts beside them.
#[derive(Clone, Copy)]
pub struct ReadingSet {
    pub n_groups: usize,
    pub n_total: usize,
    pub sizes: [u32; base::MOST_GROUPS],
    pub readings: [f64; base::MOST_READINGS],
}

// The sizes in a set's contents, and how many readings they add up to.
// Memory is fixed and nothing is on a heap: the sizes stand in an array. `total` is their sum and no length: how many they are, the caller knows.
#[derive(Clone, Copy)]
pub struct Contents {
    pub sizes: [u32; base::MOST_GROUPS],
    pub total: u32,
}

// The k sizes at the front of `bytes`.
#[tactic(auto, using(base::proofs::Cuts::total_done, base::proofs::Fills::fill_starts, base::proofs::Fills::fill_step, base::proofs::Fills::fill_ends, base::proofs::Words::length_words, crate::proofs::Littles::chunks_are, crate::proofs::Littles::among, crate::proofs::Littles::pair_read, crate::proofs::Littles::numbers_turn), unfolding(results::specs::Results::no_sizes))]
fn sizes_in(bytes: &[u8], k: usize) -> Contents
    requires { (k ≤ most_groups) × (k * 2 ≤ length bytes.now) }
    ensures { result ≡ contents_of (map little (words 2 k bytes.now)) }
{
    let mut sizes = [0u32; base::MOST_GROUPS];
    let mut total: u32 = 0;
    let (pairs, _) = bytes.as_chunks::<2>();
    for (g, pair) in pairs[..k].iter().enumerate() {
        let n = u16::from_le_bytes(*pair) as u32;
        sizes[g] = n;
        total += n;
    }
    Contents { sizes, total }
}

// The n readings at the front of `bytes`, and zeros behind them. A NaN's pattern is met without an undefined step.
#[tactic(auto, using(base::proofs::Fills::fill_starts, base::proofs::Fills::fill_step, base::proofs::Fills::fill_ends, base::proofs::Words::length_words, crate::proofs::Littles::chunks_are, crate::proofs::Littles::among, crate::proofs::Littles::eight_read), unfolding(crate::specs::Sets::no_readings))]
fn readings_in(bytes: &[u8], n: usize) -> [f64; base::MOST_READINGS]
    requires { (n ≤ most_readings) × (n * 8 ≤ length bytes.now) }
    ensures { result ≡ body_of (map reading (words 8 n bytes.now)) }
{
    let mut readings = [0.0; base::MOST_READINGS];
    let (eights, _) = bytes.as_chunks::<8>();
    for (i, eight) in eights[..n].iter().enumerate() {
        readings[i] = float::float_of(u64::from_le_bytes(*eight));
    }
    readings
}

// The sizes and readings of a set, behind its checks in document 01's order, up to one-way's own.
#[tactic(auto, using(base::proofs::Parts::rest_part, crate::proofs::Littles::two_first, crate::proofs::Heads::counted, crate::proofs::Heads::fails, crate::proofs::Heads::cut_off, crate::proofs::Heads::too_many_groups, crate::proofs::Heads::contents_short, crate::proofs::Heads::too_many_readings, crate::proofs::Heads::wrong_length, crate::proofs::Heads::nothing_wrong, crate::proofs::Heads::body_fits, crate::proofs::Heads::set_made))]
pub fn read_set(set: &[u8]) -> Result<ReadingSet, Refusal>
    ensures { result ≡ read_set set.now }
{
    let len = set.len();
    if len < 2 {
        return Err(Refusal::new(10, 2, len as u64));
    }
    let k = u16::from_le_bytes([set[0], set[1]]) as usize;
    if base::MOST_GROUPS < k {
        return Err(Refusal::new(11, 1, k as u64));
    }
    let contents = 2 + k * 2;
    if len < contents {
        return Err(Refusal::new(10, contents as u64, len as u64));
    }
    let Contents { sizes, total } = sizes_in(&set[2..], k);
    let n = total as usize;
    if base::MOST_READINGS < n {
        return Err(Refusal::new(11, 2, n as u64));
    }
    let needed = contents + n * 8;
    if len != needed {
        return Err(Refusal::new(10, needed as u64, len as u64));
    }
    Ok(ReadingSet {
        n_groups: k,
        n_total: n,
        sizes,
        readings: readings_in(&set[contents..], n),
    })
}

// The one-way analysis of a set.
#[tactic(auto, using(crate::proofs::Heads::set_refused, crate::proofs::Heads::groups_fit, crate::proofs::Heads::readings_fit, crate::proofs::Heads::analysed))]
pub fn set_anova(set: &[u8], kind: AnovaKind) -> OneWayAnovaResult
    ensures { result ≡ set_anova kind set.now }
{
    match read_set(set) {
        Ok(s) => oneway::one_way_anova(&s.readings[..s.n_total], &s.sizes[..s.n_groups], kind),
        Err(refusal) => results::refused(refusal),
    }
}

// The eight bytes of a number, the lowest first: what a set is written with.
#[tactic(auto, using(crate::proofs::Littles::bytes_are))]
pub fn le_bytes(w: u64) -> [u8; 8]
    ensures { result ≡ bytes 8 w }
{
    w.to_le_bytes()
}
