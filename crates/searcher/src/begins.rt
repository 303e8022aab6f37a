ghost use Rattle.std.specs.Prelude.{◌≡◌, ◌↔◌, IsTrue};
ghost use Rattle.searcher.specs.CellWalls.{IsLowestBegin, IsSaid};

use cayley::Begin;
use crossing::Entry;
use lex_height::Lex;
use std::cmp::Ordering;

// Whether two times are one.
fn is_same(time: &Lex, other: &Lex) -> bool
    ensures { IsTrue result ↔ (time.now ≡ other.now) }
{
    match time.cmp(other) {
        Ordering::Less => false,
        Ordering::Equal => true,
        Ordering::Greater => false,
    }
}

// Whether a cell whose lines have this entry begins where a branch says.
pub(crate) fn begins_as(begin: &Begin, entry: &Entry) -> bool
    ensures said { IsTrue result ↔ IsSaid begin.now entry.now }
    ensures lowest { IsLowestBegin begin.now }
{
    match begin {
        Begin::Start => match entry {
            Entry::Always => true,
            _ => false,
        },
        Begin::At(time) => {
            // A time is in lowest terms by its type, as its readers tell.
            let _den = time.den();
            match entry {
                Entry::At { time: other, .. } => is_same(time, other),
                Entry::Tied { time: other, .. } => is_same(time, other),
                _ => false,
            }
        }
    }
}
