// The calls that the benchmark times, exported to the program that tools/speed builds.
#![tactic(auto)]

ghost use Rattle.std.specs.Prelude.{◌≡◌, ◌++◌, ◌≤◌, length};
ghost use Rattle.base.specs.Lists.{over};
ghost use Rattle.oneway.specs.declared.AnovaKind.TheVariants.{Fisher, Welch, Levene};
ghost use Rattle.root.specs.Root.{sqrt_of};
ghost use Rattle.speed_oneway.specs.Calls.{handed_out, timed};

use oneway::AnovaKind;

// How many numbers an analysis hands out: nine figures, and the means of the groups.
const FIGURES: usize = 9;

const PLACES: usize = FIGURES + base::MOST_GROUPS;

// Both lists of numbers, one behind the other. They come by value: lent, they cost each call a hundred instructions more.
fn hand_out(out: &mut [f64], figures: [f64; FIGURES], means: [f64; base::MOST_GROUPS])
    requires { handed_out ≤ length out.old }
    ensures { out.new ≡ over (figures ++ means) out.old }
{
    lent::put(out, &figures);
    lent::put(&mut out[FIGURES..], &means);
}

// One analysis: 0 and its numbers, or the number of a refusal and `out` as it was.
#[tactic(auto, using(base::proofs::Order::was_passed, base::proofs::Order::was_refused, crate::proofs::Laid::accepted, crate::proofs::Laid::refused), unfolding(crate::specs::Calls::timed))]
fn analyse(readings: &[f64], sizes: &[u32], out: &mut [f64], kind: AnovaKind) -> u32
    ensures { (out.new, result) ≡ timed kind readings.now sizes.now out.old }
{
    if out.len() < PLACES {
        return 12;
    }
    let r = oneway::one_way_anova(readings, sizes, kind);
    // C gets the refusal's number.
    if let Err(refusal) = r.refusal.check() {
        return refusal.number;
    }
    let figures = [
        r.statistic,
        r.df_between,
        r.df_within,
        r.ss_between,
        r.ss_within,
        r.ss_total,
        r.ms_between,
        r.ms_within,
        r.grand_mean,
    ];
    hand_out(out, figures, r.group_means);
    0
}

// C asks for each kind by its name.
#[unsafe(no_mangle)]
pub extern "C" fn speed_fisher(readings: &[f64], sizes: &[u32], out: &mut [f64]) -> u32
    ensures { (out.new, result) ≡ timed Fisher readings.now sizes.now out.old }
{
    analyse(readings, sizes, out, AnovaKind::Fisher)
}

#[unsafe(no_mangle)]
pub extern "C" fn speed_welch(readings: &[f64], sizes: &[u32], out: &mut [f64]) -> u32
    ensures { (out.new, result) ≡ timed Welch readings.now sizes.now out.old }
{
    analyse(readings, sizes, out, AnovaKind::Welch)
}

#[unsafe(no_mangle)]
pub extern "C" fn speed_levene(readings: &[f64], sizes: &[u32], out: &mut [f64]) -> u32
    ensures { (out.new, result) ≡ timed Levene readings.now sizes.now out.old }
{
    analyse(readings, sizes, out, AnovaKind::Levene)
}

// The square root, beside the machine's.
#[unsafe(no_mangle)]
pub extern "C" fn speed_sqrt(x: f64) -> f64
    ensures { result ≡ sqrt_of x }
{
    root::sqrt(x)
}
