// Why a polynomial that follows the grammar has no value.

// A number that is out of its limits, or a part that is too large.
#[derive(Clone, Copy)]
pub(crate) enum Cause {
    Range,
    Bound,
}
