// The calls of the bench host, which is written in C: an analysis of a reading set, into an output that the host lends.
#![tactic(auto)]

ghost use Rattle.std.specs.Prelude.{◌≡◌, ◌≤◌, ◌*◌, length};
ghost use Rattle.base.specs.Lists.{over, run};
ghost use Rattle.oneway.specs.declared.AnovaKind.TheVariants.{Fisher, Welch};
ghost use Rattle.bench.specs.Calls.{float_bytes, bench_of};

use oneway::AnovaKind;

// The six figures of an answer, eight bytes each.
const OUT_BYTES: usize = 6 * 8;

// Puts the floats over the front of out, eight bytes each.
#[tactic(auto, using(base::proofs::Runs::run_step, base::proofs::Runs::run_end, base::proofs::Runs::sets_over, text::proofs::Puts::put_lays, text::proofs::Puts::put_place, crate::proofs::Writes::eight, crate::proofs::Writes::length_floats))]
fn put_floats(out: &mut [u8], figures: &[f64])
    requires { length figures.now * 8 ≤ length out.old }
    ensures { out.new ≡ over (run float_bytes figures.now) out.old }
{
    let mut at = 0;
    for x in figures {
        at = text::put(out, at, &set::le_bytes(float::bits_of(*x)));
    }
}

// An output that is too short, then the set's checks, then one-way's; nothing is written before the last of them. C gets the refusal's number.
#[tactic(auto, using(base::proofs::Order::was_passed, base::proofs::Order::was_refused, crate::proofs::Writes::too_short, crate::proofs::Writes::refuses, crate::proofs::Writes::writes))]
fn bench(set: &[u8], out: &mut [u8], kind: AnovaKind) -> u32
    ensures { (out.new, result) ≡ bench_of kind set.now out.old }
{
    if out.len() < OUT_BYTES {
        return 12;
    }
    let a = set::set_anova(set, kind);
    match a.refusal.check() {
        Ok(()) => {
            let figures = [
                a.statistic,
                a.df_between,
                a.df_within,
                a.ss_between,
                a.ss_within,
                a.ss_total,
            ];
            put_floats(out, &figures);
            0
        }
        Err(refusal) => refusal.number,
    }
}

// C asks for each kind by its name.
// Fisher's analysis: F, df between, df within, SS between, within and total, in the first 48 bytes of out.
#[unsafe(no_mangle)]
pub extern "C" fn bench_fisher(set: &[u8], out: &mut [u8]) -> u32
    ensures { (out.new, result) ≡ bench_of Fisher set.now out.old }
{
    bench(set, out, AnovaKind::Fisher)
}

// Welch's analysis, in the same places; its sums of squares are +0.0.
#[unsafe(no_mangle)]
pub extern "C" fn bench_welch(set: &[u8], out: &mut [u8]) -> u32
    ensures { (out.new, result) ≡ bench_of Welch set.now out.old }
{
    bench(set, out, AnovaKind::Welch)
}
