// Memory that the caller lends to an analysis.
#![tactic(auto)]

ghost use Rattle.std.specs.Prelude.{◌≡◌};
ghost use Rattle.lent.specs.Laying.{laid};
ghost use Rattle.lent.specs.Wiping.{wiped};

// The first 6,400 places, or all where there are fewer, become +0.0.
pub fn wipe(work: &mut [f64])
    ensures { work.new ≡ wiped work.old }
{
    let k = work.len().min(base::SCRATCH_PLACES);
    work[..k].fill(0.0);
}

// The numbers, put into the first places: the places behind keep what they hold. Where there is no room for all of them, nothing is changed.
// Place by place: `copy_from_slice` would have a host link `memmove`.
#[tactic(auto, using(base::proofs::Fills::fill_starts, base::proofs::Fills::fill_step, base::proofs::Fills::fill_ends, crate::proofs::Lays::all_put), unfolding(crate::specs::Laying::laid))]
pub fn put(out: &mut [f64], numbers: &[f64])
    ensures { out.new ≡ laid numbers.now out.old }
{
    let n = numbers.len();
    if n <= out.len() {
        for (i, x) in numbers.iter().enumerate() {
            out[i] = *x;
        }
    }
}
