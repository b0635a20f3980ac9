// The repeated-measures call that the benchmark times, exported to the program that tools/speed builds.
#![tactic(auto)]

ghost use Rattle.std.specs.Prelude.{◌≡◌};
ghost use Rattle.speed_repeated.specs.Calls.{timed};

// How many numbers an analysis hands out: F, three sums of squares, W, two epsilons, and degrees of freedom.
const PLACES: usize = 8;

// C hands over a number for a choice. One analysis, with sphericity where `sphericity` is 1: 0 and its numbers, or the number of a refusal and `out` as it was.
#[tactic(auto, using(base::proofs::Order::was_passed, base::proofs::Order::was_refused, crate::proofs::Laid::accepted, crate::proofs::Laid::refused), unfolding(crate::specs::Calls::timed))]
#[unsafe(no_mangle)]
pub extern "C" fn speed_repeated(
    readings: &[f64],
    sizes: &[u32],
    sphericity: u32,
    out: &mut [f64],
) -> u32
    ensures { (out.new, result) ≡ timed readings.now sizes.now sphericity out.old }
{
    if out.len() < PLACES {
        return 12;
    }
    let r = repeated::repeated_measures_anova(readings, sizes, sphericity == 1);
    // C gets the refusal's number.
    if let Err(refusal) = r.refusal.check() {
        return refusal.number;
    }
    let numbers = [
        r.within_subjects.f,
        r.within_subjects.ss,
        r.subjects.ss,
        r.error.ss,
        r.sphericity.w,
        r.greenhouse_geisser.epsilon,
        r.huynh_feldt.epsilon,
        r.huynh_feldt.df_num_corrected,
    ];
    lent::put(out, &numbers);
    0
}
