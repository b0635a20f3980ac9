// The two-way call that the benchmark times, exported to the program that tools/speed builds.
#![tactic(auto)]

ghost use Rattle.std.specs.Prelude.{◌≡◌};
ghost use Rattle.speed_twoway.specs.Calls.{timed};

// How many numbers an analysis hands out: three F and three sums of squares.
const PLACES: usize = 6;

// One analysis: 0, its numbers, and the scratch wiped as `two_way_anova` leaves it; or the number of a refusal, and `out` and the scratch as they were.
#[tactic(auto, unfolding(crate::specs::Calls::timed))]
#[unsafe(no_mangle)]
pub extern "C" fn speed_two_way(
    values: &[f64],
    factor_a: &[u32],
    factor_b: &[u32],
    scratch: &mut [f64],
    out: &mut [f64],
) -> u32
    ensures { (scratch.new, (out.new, result)) ≡ timed values.now factor_a.now factor_b.now scratch.old out.old }
{
    if out.len() < PLACES {
        return 12;
    }
    let r = twoway::two_way_anova(values, factor_a, factor_b, scratch);
    // C gets the refusal's number.
    if let Err(refusal) = r.refusal.check() {
        return refusal.number;
    }
    let numbers = [
        r.factor_a.f,
        r.factor_b.f,
        r.interaction.f,
        r.factor_a.ss,
        r.factor_b.ss,
        r.interaction.ss,
    ];
    lent::put(out, &numbers);
    0
}
