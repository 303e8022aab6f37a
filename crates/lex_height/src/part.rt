/// The greatest number of parts of a value.
pub const PARTS: usize = 34;

/// One entry of a value: the numerator at a rank. The entry of rank 0 is the value's fraction, and
/// each further rank is infinitely smaller than those before it.
#[derive(Clone, Copy, Debug, PartialEq, Eq)]
pub struct LexPart {
    pub rank: u32,
    pub num: i128,
}
