//! The law of the two ends: the clause of a function that does nothing.

ghost use Rattle.crossing.specs.Between.{PositiveBetween};

/// The law that the lines are positive exactly after their entry and before their exit.
pub fn positive_between()
    ensures { PositiveBetween }
{}
