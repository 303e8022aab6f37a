ghost use Rattle.std.specs.Prelude.{◌≡◌, Some, None};

use crate::table::Table;
use std::marker::Model;
use std::mem;

/// Holds at most one table, for the call that comes next.
#[derive(Drop)]
pub struct Kept {
    table: Option<Table>,
}

impl Model for Kept {
    ghost use Rattle.std.specs.Prelude.{Option};
    ghost use Rattle.table_update.specs.States.{Elimination};

    ghost Value = { Option Elimination };

    ghost view = { λ a. a.table };
}

impl Kept {
    /// Holds none, and takes no memory.
    pub fn new() -> Kept
        ensures { result ≡ None }
    {
        Kept { table: None }
    }

    /// Takes out what is held.
    pub fn take(&mut self) -> Option<Table>
        ensures taken { result ≡ self.old }
        ensures left { self.new ≡ None }
    {
        mem::replace(&mut self.table, None)
    }

    /// Holds this table, in place of any other.
    pub fn put(&mut self, table: Table)
        ensures { self.new ≡ Some table }
    {
        self.table = Some(table);
    }
}
