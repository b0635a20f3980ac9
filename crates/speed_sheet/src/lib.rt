// The edits of a sheet that the benchmark times, exported to the program that tools/speed builds.
#![tactic(auto)]

mod history;

ghost use Rattle.std.specs.Prelude.{◌≡◌};
ghost use Rattle.oneway.specs.declared.AnovaKind.TheVariants.{Fisher, Welch};
ghost use Rattle.speed_sheet.specs.Histories.{history_of};

use oneway::AnovaKind;

// C asks for each kind by its name.
// A sheet, loaded once and edited as often as `out` has places, and the F of a report after each edit.
#[unsafe(no_mangle)]
pub extern "C" fn speed_history_fisher(
    readings: &[f64],
    sizes: &[u32],
    edits: &[u32],
    fresh: &[f64],
    out: &mut [f64],
) -> u32
    ensures { (out.new, result) ≡ history_of Fisher readings.now sizes.now edits.now fresh.now out.old }
{
    history::history(readings, sizes, edits, fresh, out, AnovaKind::Fisher)
}

#[unsafe(no_mangle)]
pub extern "C" fn speed_history_welch(
    readings: &[f64],
    sizes: &[u32],
    edits: &[u32],
    fresh: &[f64],
    out: &mut [f64],
) -> u32
    ensures { (out.new, result) ≡ history_of Welch readings.now sizes.now edits.now fresh.now out.old }
{
    history::history(readings, sizes, edits, fresh, out, AnovaKind::Welch)
}
