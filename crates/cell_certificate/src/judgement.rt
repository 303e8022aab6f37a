// What is said of one line after the cell of the line before.
#[derive(Clone, Copy)]
pub(crate) enum Judgement {
    Passes,
    // A number of the elimination, of the kernel, of a sum or of a circuit that is needed doesn't fit.
    Unfit,
    Order,
    Dependent,
    NotLevel,
    NotLeast,
    NotLowest,
}
