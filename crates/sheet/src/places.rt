// Readings moved by one place, within the places that hold them.
ghost use Rattle.std.specs.Prelude.{◌≡◌, ◌≤◌, ◌<◌, length};
ghost use Rattle.base.specs.Inner.{inserted, deleted};
ghost use Rattle.float.specs.Words.{plus_zero};

// x at `at`: each reading from there to `end` goes one place up, the last into `end` itself.
#[tactic(auto, using(crate::proofs::Moved::moved_up))]
pub fn insert(places: &mut [f64], at: usize, end: usize, x: f64)
    requires { (at ≤ end) × (end < length places.old) }
    ensures { places.new ≡ inserted at end x places.old }
{
    places.copy_within(at..end, at + 1);
    places[at] = x;
}

// The reading at `at` is gone: each one behind it goes one place down, and the place that the last one before `end` leaves is cleared.
#[tactic(auto, using(crate::proofs::Moved::moved_down))]
pub fn delete(places: &mut [f64], at: usize, end: usize)
    requires { (at < end) × (end ≤ length places.old) }
    ensures { places.new ≡ deleted at end plus_zero places.old }
{
    places.copy_within(at + 1..end, at);
    places[end - 1] = 0.0;
}
