ghost use Rattle.std.specs.Prelude.{IsTrue, ◌↔◌};
ghost use Rattle.lex_height.specs.Values.{AreParts};

use crate::part::LexPart;

// Whether the ranks rise and each number is other than zero and fits.
pub(crate) fn are_parts(parts: &[LexPart]) -> bool
    ensures { IsTrue result ↔ AreParts 0 parts.now }
{
    let mut least = 0u64;
    for part in parts {
        let rank = part.rank as u64;
        if rank < least || part.num == 0 || part.num == i128::MIN {
            return false;
        }
        least = rank + 1;
    }
    true
}
