ghost use Rattle.reduced_rows.specs.Carried.{SpanCarries};
ghost use Rattle.reduced_rows.specs.Least.{LeastDen};
ghost use Rattle.reduced_rows.specs.Solutions.{ColumnSolves, InverseColumns};

/// The law that a row in the span of rows with unit vectors carries how it was made of them.
pub fn span_carries()
    ensures { SpanCarries }
{}

/// The law that a column beside the reduced ones gives a solution over the least common multiple of
/// the pivots.
pub fn column_solves()
    ensures { ColumnSolves }
{}

/// The law that no lesser number than the least common multiple of the pivots makes the inverse
/// whole.
pub fn least_den()
    ensures { LeastDen }
{}

/// The law that the columns beside, where the rows began with unit vectors, give the inverse over
/// the least common multiple of the pivots.
pub fn inverse_columns()
    ensures { InverseColumns }
{}
