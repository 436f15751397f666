ghost use Rattle.simplex_law.specs.Optima.{PackingDuality};

/// What fits into the bounds gains no more than the bounds are worth at prices that no column exceeds.
/// The call does nothing, and takes no time; it gives its caller's proof the law.
pub fn packing_duality()
    ensures { PackingDuality }
{}
