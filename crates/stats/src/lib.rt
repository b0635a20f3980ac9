// Sums, means and variances of readings: one rounding per operation, in the order of the source.
#![tactic(auto)]

ghost use Rattle.std.specs.Prelude.{◌≡◌, length};
ghost use Rattle.base.specs.Refusals.{judged, verdict};
ghost use Rattle.stats.specs.Sums.{sum, sq_dev, has_nan, mean_of, variance_of};
ghost use Rattle.stats.specs.Figures.{mean_refusal, variance_refusal, counted, figure_of, mean_answer, variance_answer};

use base::Refusal;

// One number, or the refusal in its place. Document 01 fixes this record, with a refusal beside a zero.
#[derive(Clone, Copy)]
pub struct Figure {
    pub refusal: Refusal,
    pub value: f64,
}

// The readings added up in their order.
#[tactic(auto, unfolding(crate::specs::Sums::sum_by))]
pub fn sum(readings: &[f64]) -> f64
    ensures { result ≡ sum readings.now }
{
    float::canon(readings.iter().sum())
}

// The squared distances of the readings from `mean`, added up in their order.
pub fn sq_dev(readings: &[f64], mean: f64) -> f64
    ensures { result ≡ sq_dev mean readings.now }
{
    float::canon(readings.iter().map(|x| (*x - mean) * (*x - mean)).sum())
}

// Whether one of the readings is a NaN. All of them are looked at, so that the compiler can take several at a time.
#[tactic(auto, using(crate::proofs::Finding::found_here, crate::proofs::Finding::found_further, crate::proofs::Finding::found_told))]
pub fn has_nan(readings: &[f64]) -> bool
    ensures { result ≡ has_nan readings.now }
{
    let mut found = false;
    // Not a fold over `|`: it takes 7 in 100 more time.
    for x in readings {
        if x.is_nan() {
            found = true;
        }
    }
    found
}

// The check of n readings: more than document 01 takes, or fewer than `fewest`, where the refusal is `too_few`.
fn count_refusal(n: usize, fewest: usize, too_few: Refusal) -> Result<(), Refusal>
    ensures { result ≡ verdict (counted fewest n too_few) }
{
    if base::MOST_READINGS < n {
        return Err(Refusal::new(11, 2, n as u64));
    }
    if n < fewest {
        return too_few.check();
    }
    Ok(())
}

// The mean, or the refusal that so many readings meet.
#[tactic(auto, using(base::proofs::Order::was_passed, float::proofs::Counts::small_count, crate::proofs::Passed::mean_passed, crate::proofs::Passed::mean_told, crate::proofs::Passed::check_refuses, crate::proofs::Passed::check_passes))]
fn mean_found(readings: &[f64]) -> Result<f64, Refusal>
    ensures { result ≡ judged (mean_refusal (length readings.now)) (mean_of readings.now) }
{
    let n = readings.len();
    count_refusal(n, 1, Refusal::new(1, 0, 0))?;
    Ok(sum(readings) / (n as f64))
}

// The variance, or the refusal that so many readings meet.
#[tactic(auto, using(base::proofs::Order::was_passed, float::proofs::Counts::small_count, crate::proofs::Passed::variance_passed, crate::proofs::Passed::variance_told, crate::proofs::Passed::check_refuses, crate::proofs::Passed::check_passes))]
fn variance_found(readings: &[f64]) -> Result<f64, Refusal>
    ensures { result ≡ judged (variance_refusal (length readings.now)) (variance_of readings.now) }
{
    let n = readings.len();
    let few = base::FEWEST_READINGS;
    count_refusal(n, few, Refusal::new(2, few as u64, n as u64))?;
    let mean = sum(readings) / (n as f64);
    Ok(sq_dev(readings, mean) / ((n - 1) as f64))
}

// What was found, as the record that document 01 fixes: a number, or a refusal beside a zero.
impl From<Result<f64, Refusal>> for Figure {
    ghost from_gives = { λ found r. r ≡ figure_of found };

    fn from(found: Result<f64, Refusal>) -> Figure {
        match found {
            Ok(value) => Figure {
                refusal: Refusal::none(),
                value: float::canon(value),
            },
            Err(refusal) => Figure {
                refusal,
                value: 0.0,
            },
        }
    }
}

// The mean of 1 to 512 readings.
#[tactic(auto, using(crate::proofs::Passed::figure_told), unfolding(crate::specs::Figures::mean_answer))]
pub fn mean(readings: &[f64]) -> Figure
    ensures { result ≡ mean_answer readings.now }
{
    Figure::from(mean_found(readings))
}

// The variance of 2 to 512 readings, over n - 1.
#[tactic(auto, using(crate::proofs::Passed::figure_told), unfolding(crate::specs::Figures::variance_answer))]
pub fn variance(readings: &[f64]) -> Figure
    ensures { result ≡ variance_answer readings.now }
{
    Figure::from(variance_found(readings))
}
