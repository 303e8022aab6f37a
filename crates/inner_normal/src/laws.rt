ghost use Rattle.inner_normal.specs.LeastDenominators.{LeastDenominator};

/// The law that the common denominator of a cell is the least: it divides each number at least 1 that
/// makes the inverse of the differences whole.
pub fn least_denominator()
    ensures { LeastDenominator }
{}
