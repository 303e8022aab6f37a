use int_vectors::IntVec;
use std::alloc::{AllocError, AllocFailed};
use thiserror::Error;
use wide_int::OutOfMemory;

/// Why rows have no reduced rows.
#[derive(Debug, Drop, Error)]
pub enum ReduceFault {
    /// A number of the elimination or of the kernel doesn't fit.
    #[error("a number doesn't fit")]
    Overflow,
    /// The rows, cut to the columns that were to be cleared, are dependent. The kernel has as many
    /// entries as these columns, isn't zero, and is orthogonal to each cut row.
    #[error("the rows are dependent")]
    Dependent { kernel: IntVec },
    /// There was no memory.
    #[error("out of memory")]
    OutOfMemory,
}

/// Why a cell has no answer.
#[derive(Debug, Drop, Error)]
pub enum CellFault {
    /// A number of the cell's working doesn't fit.
    #[error("a number doesn't fit")]
    Overflow,
    /// The cell's differences are dependent; the kernel isn't zero and is orthogonal to each.
    #[error("the cell is dependent")]
    Dependent { kernel: IntVec },
    /// There was no memory.
    #[error("out of memory")]
    OutOfMemory,
}

/// Why something can't be made from what was computed before.
#[derive(Clone, Copy, Debug, PartialEq, Eq, Error)]
pub enum FromFault {
    /// A number of the working doesn't fit.
    #[error("a number doesn't fit")]
    Overflow,
    /// There was no memory.
    #[error("out of memory")]
    OutOfMemory,
}

impl From<AllocError> for ReduceFault {
    ghost use Rattle.reduced_rows.specs.declared.faults.ReduceFault.TheVariants.{OutOfMemory as no_memory};
    ghost use Rattle.std.specs.Prelude.{◌≡◌};

    ghost from_gives = { λ _ e. e ≡ no_memory };

    fn from(_fault: AllocError) -> ReduceFault {
        ReduceFault::OutOfMemory
    }
}

impl<T: Drop> From<AllocFailed<T>> for ReduceFault {
    ghost use Rattle.reduced_rows.specs.declared.faults.ReduceFault.TheVariants.{OutOfMemory as no_memory};
    ghost use Rattle.std.specs.Prelude.{◌≡◌};

    ghost from_gives = { λ _ e. e ≡ no_memory };

    fn from(_fault: AllocFailed<T>) -> ReduceFault {
        ReduceFault::OutOfMemory
    }
}

impl From<OutOfMemory> for ReduceFault {
    ghost use Rattle.reduced_rows.specs.declared.faults.ReduceFault.TheVariants.{OutOfMemory as no_memory};
    ghost use Rattle.std.specs.Prelude.{◌≡◌};

    ghost from_gives = { λ _ e. e ≡ no_memory };

    fn from(_fault: OutOfMemory) -> ReduceFault {
        ReduceFault::OutOfMemory
    }
}

impl From<OutOfMemory> for CellFault {
    ghost use Rattle.reduced_rows.specs.declared.faults.CellFault.TheVariants.{OutOfMemory as no_memory};
    ghost use Rattle.std.specs.Prelude.{◌≡◌};

    ghost from_gives = { λ _ e. e ≡ no_memory };

    fn from(_fault: OutOfMemory) -> CellFault {
        CellFault::OutOfMemory
    }
}

impl From<AllocError> for FromFault {
    ghost use Rattle.reduced_rows.specs.declared.faults.FromFault.TheVariants.{OutOfMemory as no_memory};
    ghost use Rattle.std.specs.Prelude.{◌≡◌};

    ghost from_gives = { λ _ e. e ≡ no_memory };

    fn from(_fault: AllocError) -> FromFault {
        FromFault::OutOfMemory
    }
}

impl<T: Drop> From<AllocFailed<T>> for FromFault {
    ghost use Rattle.reduced_rows.specs.declared.faults.FromFault.TheVariants.{OutOfMemory as no_memory};
    ghost use Rattle.std.specs.Prelude.{◌≡◌};

    ghost from_gives = { λ _ e. e ≡ no_memory };

    fn from(_fault: AllocFailed<T>) -> FromFault {
        FromFault::OutOfMemory
    }
}

impl From<FromFault> for CellFault {
    ghost use Rattle.reduced_rows.specs.Conversions.{of_rest};
    ghost use Rattle.std.specs.Prelude.{◌≡◌};

    ghost from_gives = { λ fault e. e ≡ of_rest fault };

    fn from(fault: FromFault) -> CellFault {
        match fault {
            FromFault::Overflow => CellFault::Overflow,
            FromFault::OutOfMemory => CellFault::OutOfMemory,
        }
    }
}

impl From<ReduceFault> for CellFault {
    ghost use Rattle.reduced_rows.specs.Conversions.{of_rows};
    ghost use Rattle.std.specs.Prelude.{◌≡◌};

    ghost from_gives = { λ fault e. e ≡ of_rows fault };

    fn from(fault: ReduceFault) -> CellFault {
        match fault {
            ReduceFault::Overflow => CellFault::Overflow,
            ReduceFault::Dependent { kernel } => CellFault::Dependent { kernel },
            ReduceFault::OutOfMemory => CellFault::OutOfMemory,
        }
    }
}
