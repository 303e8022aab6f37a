// The limits of a polynomial's text. Those of dimensions, terms and exponents are those of problems.

/// The greatest number of parentheses that are open at one place.
pub const OPEN: usize = 64;

/// The greatest exponent of a number or of parentheses.
pub const POWER: usize = 16;
