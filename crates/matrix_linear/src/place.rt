// Single places of a flat matrix.
ghost use Rattle.std.specs.Prelude.{◌≡◌, ◌<◌, length};
ghost use Rattle.float.specs.Singles.{abs_of};
ghost use Rattle.matrix_linear.specs.Rows.{at, skips};

// |m[k]|
pub fn abs_at(m: &[f64], k: usize) -> f64
    requires { k < length m.now }
    ensures { result ≡ abs_of (at m.now k) }
{
    float::abs(m[k])
}

// Is the number at place k too small for a divisor? A NaN is not.
pub fn skips(m: &[f64], k: usize) -> bool
    requires { k < length m.now }
    ensures { result ≡ skips m.now k }
{
    abs_at(m, k) < matrix_places::TINY
}
