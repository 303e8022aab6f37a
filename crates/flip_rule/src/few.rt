use cayley::Cell;

/// One or two cells, in cell order.
#[derive(Drop)]
pub enum Few {
    One(Cell),
    Two(Cell, Cell),
}
