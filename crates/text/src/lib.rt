// Numbers as text, and text in lent memory.
// No `Display` with `write!`: the bytes that a call puts, and the place behind them, are its clause, and nothing is on a heap.
#![tactic(auto)]

ghost use Rattle.std.specs.Prelude.{◌≡◌, ◌<◌, ◌≤◌, length};
ghost use Rattle.text.specs.Numbers.{glyph, digits, width_of, hex_of, numeral_of};
ghost use Rattle.text.specs.Put.{put_of};

// Its clause says that `at` stands for a text that does not fit.
// Lays src over out from `at` on, and answers the place behind it. Where src does not fit there, out stays as it is, and
// the answer is `at`.
#[tactic(auto, unfolding(crate::specs::Put::put_of))]
pub fn put(out: &mut [u8], at: usize, src: &[u8]) -> usize
    ensures { (out.new, result) ≡ put_of out.old at src.now }
{
    if at > out.len() || src.len() > out.len() - at {
        return at;
    }
    let end = at + src.len();
    out[at..end].copy_from_slice(src);
    end
}

// Puts the 16 upper-case hex digits of x, the most significant first.
#[tactic(auto, unfolding(crate::specs::Numbers::hex_of))]
pub fn put_hex(out: &mut [u8], at: usize, x: u64) -> usize
    ensures { (out.new, result) ≡ put_of out.old at (hex_of x) }
{
    let mut all = [0u8; 16];
    fill(&mut all, 16, x);
    put(out, at, &all)
}

// Puts the decimal digits of n, with no zeros in front: 0 is `0`.
#[tactic(auto, using(crate::proofs::Numerals::width_fits), unfolding(crate::specs::Numbers::numeral_of))]
pub fn put_decimal(out: &mut [u8], at: usize, n: u64) -> usize
    ensures { (out.new, result) ≡ put_of out.old at (numeral_of n) }
{
    let mut all = [0u8; 20];
    let digits = &mut all[..width(n)];
    fill(digits, 10, n);
    put(out, at, digits)
}

// The digit of a number below 16.
fn digit(d: u64) -> u8
    requires { d < 16 }
    ensures { result ≡ glyph d }
{
    if d < 10 {
        b'0' + (d as u8)
    } else {
        b'A' - 10 + (d as u8)
    }
}

// The lowest digits of n in a base, as many as out has places, the most significant first.
#[tactic(auto, using(crate::proofs::Fills::fill_starts, crate::proofs::Fills::fill_turn, crate::proofs::Fills::fill_ends))]
fn fill(out: &mut [u8], base: u64, n: u64)
    requires { (0 < base) × (base ≤ 16) }
    ensures { out.new ≡ digits base (length out.old) n }
{
    let mut rest = n;
    // By an index: of what `iter_mut().rev()` writes a proof knows the length alone.
    for i in (0..out.len()).rev() {
        out[i] = digit(rest % base);
        rest /= base;
    }
}

// How many decimal digits n has.
#[tactic(auto, using(crate::proofs::Widths::width_log))]
fn width(n: u64) -> usize
    ensures { result ≡ width_of n }
{
    n.max(1).ilog10() as usize + 1
}
