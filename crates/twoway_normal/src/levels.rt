// The numbers of levels that a design may have.
ghost use Rattle.std.specs.Prelude.{◌≤◌};
ghost use Rattle.base.specs.Limits.{most_levels};

// The levels of both factors, two to six each.
#[derive(Clone, Copy)]
pub struct Levels {
    pub a: usize,
    pub b: usize,
    pub ghost in_range: { (2 ≤ a) × (a ≤ most_levels) × (2 ≤ b) × (b ≤ most_levels) },
}
