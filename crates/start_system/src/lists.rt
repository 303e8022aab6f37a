ghost use Rattle.std.specs.Prelude.{◌≡◌, ◌++◌, ◌∷◌, [], OnOk};

use wide_int::OutOfMemory;

// Appends an entry.
pub(crate) fn push<T: Drop>(list: &mut Vec<T>, entry: T) -> Result<(), OutOfMemory>
    ensures { OnOk result (list.new.items ≡ list.old.items ++ entry ∷ []) }
{
    match list.push(entry) {
        Ok(()) => Ok(()),
        Err(_) => Err(OutOfMemory),
    }
}
