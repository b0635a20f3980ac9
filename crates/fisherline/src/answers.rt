// The text of an answer: lines with a name, and numbers that each stand behind a space.
// It is no `write!`: `text` puts the numbers, and proves their bytes. With `write!` each float would be wrapped in a type whose `Display` calls `text`.
ghost use Rattle.std.specs.Prelude.{ℕ, ◌≡◌, ◌+◌, ◌≤◌, List, ◌∷◌, length};
ghost use Rattle.text.specs.Numbers.{numeral_of};
ghost use Rattle.text.specs.Put.{put_of};
ghost use Rattle.base.specs.Lists.{run};
ghost use Rattle.fisherline.specs.Rows.{hex_bits, line_of, puts};
ghost use Rattle.fisherline.specs.Answers.{text_room, refused_text, fisher_text, answer_of};

use base::Refusal;
use oneway::AnovaKind;
use results::OneWayAnovaResult;

// One byte more than the longest set, so that a longer one is told.
pub const TOO_LONG: usize = set::LONGEST + 1;

// How many places every answer fits into.
pub const ROOM: usize = 256;

// A number that a line can hold: a count in decimal, or a float as its bits.
trait Word: Copy {
    ghost word: { Self → List ℕ };

    fn put(self, out: &mut [u8], at: usize) -> usize
        ensures { (out.new, result) ≡ put_of out.old at (word self) };
}

impl Word for u64 {
    ghost word = { numeral_of };

    fn put(self, out: &mut [u8], at: usize) -> usize {
        text::put_decimal(out, at, self)
    }
}

impl Word for f64 {
    ghost word = { hex_bits };

    fn put(self, out: &mut [u8], at: usize) -> usize {
        text::put_hex(out, at, float::bits_of(self))
    }
}

// Each number behind a space, from `at` on. The result is the place behind them: `puts` says it and the text in one equation, as `text::put` does, so `out` and the place are
// no struct.
#[tactic(auto, using(crate::proofs::Spaced::spaced_turn, crate::proofs::Spaced::item_put, crate::proofs::Spaced::spaced_ends))]
fn put_words<T: Word>(out: &mut [u8], at: usize, xs: &[T]) -> usize
    requires { at + length (run (λ x. 32 ∷ T.word x) xs.now) ≤ length out.old }
    ensures { (out.new, result) ≡ puts out.old at (run (λ x. 32 ∷ T.word x) xs.now) }
{
    let mut a = at;
    for x in xs {
        a = text::put(out, a, b" ");
        a = x.put(out, a);
    }
    a
}

// A line of numbers behind its name.
fn line<T: Word>(out: &mut [u8], at: usize, name: &[u8], xs: &[T]) -> usize
    requires { at + length (line_of T.word name.now xs.now) ≤ length out.old }
    ensures { (out.new, result) ≡ puts out.old at (line_of T.word name.now xs.now) }
{
    let a = text::put(out, at, name);
    let b = put_words(out, a, xs);
    text::put(out, b, b"\n")
}

#[tactic(auto, using(crate::proofs::Short::refused_short, crate::proofs::Spaced::puts_length))]
fn refused(out: &mut [u8], r: Refusal) -> usize
    requires { text_room ≤ length out.old }
    ensures { (out.new, result) ≡ puts out.old 0 (refused_text r) }
{
    line(out, 0, b"refused", &[r.number as u64, r.first, r.second])
}

#[tactic(auto, using(crate::proofs::Short::until_ss, crate::proofs::Short::until_df, crate::proofs::Short::until_ms, crate::proofs::Short::two_lines, crate::proofs::Short::three_lines, crate::proofs::Short::four_lines, crate::proofs::Short::five_lines, crate::proofs::Short::puts_room, crate::proofs::Spaced::puts_more))]
fn fisher(out: &mut [u8], a: OneWayAnovaResult) -> usize
    requires { text_room ≤ length out.old }
    ensures { (out.new, result) ≡ puts out.old 0 (fisher_text a) }
{
    let ss = line(out, 0, b"fisher", &[a.n_groups as u64, a.n_total as u64]);
    let df = line(out, ss, b"ss", &[a.ss_between, a.ss_within, a.ss_total]);
    let ms = line(out, df, b"df", &[a.df_between, a.df_within]);
    let f = line(out, ms, b"ms", &[a.ms_between, a.ms_within]);
    line(out, f, b"f", &[a.statistic])
}

// The answer to a set, as text at the front of out. The result is its length; where out has fewer than ROOM places nothing is written, and it is 0, as its clause says.
#[tactic(auto, using(base::proofs::Order::was_passed, base::proofs::Order::was_refused, crate::proofs::Short::too_short, crate::proofs::Short::too_long, crate::proofs::Short::answers_refusal, crate::proofs::Short::answers_fisher, crate::proofs::Spaced::puts_length))]
pub fn answer(set: &[u8], out: &mut [u8]) -> usize
    ensures { (out.new, result) ≡ answer_of set.now out.old }
{
    if out.len() < ROOM {
        return 0;
    }
    if set::LONGEST < set.len() {
        return refused(out, Refusal::new(10, set::LONGEST as u64, TOO_LONG as u64));
    }
    let a = set::set_anova(set, AnovaKind::Fisher);
    match a.refusal.check() {
        Ok(()) => fisher(out, a),
        Err(refusal) => refused(out, refusal),
    }
}
