// The points of a support that were read so far.
ghost use Rattle.std.specs.Prelude.{◌≡◌, ◌++◌, ◌∷◌, [], map, Ok, Err, if◌then◌else◌};
ghost use Rattle.cayley.specs.Stored.{file_point};
ghost use Rattle.support_text.specs.declared.fault.Kind.TheVariants.{Repeated};
ghost use Rattle.support_text.specs.Faults.{Gives, fault};
ghost use Rattle.support_text.specs.ProblemText.{is_among};

use crate::fault::{Kind, TextFault, fault_at};
use cayley::FilePoint;
use std::alloc::Global;
use std::collections::BTreeSet;
use std::marker::Model;

// The points as they stand in the text, and copies of their coordinates in order.
#[derive(Drop)]
pub(crate) struct Gathered {
    points: Vec<FilePoint>,
    seen: BTreeSet<Vec<i128>>,
}

impl Model for Gathered {
    ghost use Rattle.std.specs.Prelude.{List, map};
    ghost use Rattle.cayley.specs.Files.{FilePoint};
    ghost use Rattle.cayley.specs.Stored.{file_point};
    ghost use Rattle.support_text.specs.Seen.{HasCoordinatesOf};

    ghost Value = { List FilePoint };

    ghost view = { λ g. map file_point g.points.items };

    ghost invariant = { λ g. HasCoordinatesOf g.seen (map file_point g.points.items) };
}

impl Gathered {
    // No point.
    pub(crate) fn new(alloc: Global) -> Gathered
        ensures { result ≡ [] }
    {
        Gathered {
            points: Vec::new(alloc),
            seen: BTreeSet::new(alloc),
        }
    }

    // Adds the point of a line. Its fault is that it repeats the coordinates of an earlier point.
    pub(crate) fn add(
        &mut self,
        alloc: Global,
        line: u64,
        point: FilePoint,
    ) -> Result<(), TextFault>
        ensures { Gives (λ done. self.new) result
            (if is_among point.coords self.old then Err (fault line Kind.Repeated) else Ok (self.old ++ file_point point ∷ [])) }
    {
        if self.points.reserve(1).is_err() {
            return Err(TextFault::OutOfMemory);
        }
        let Ok(coords) = Vec::from_slice(alloc, point.coords.as_slice()) else {
            return Err(TextFault::OutOfMemory);
        };
        match self.seen.insert(coords) {
            Ok(true) => {
                self.points.push_reserved(point);
                Ok(())
            }
            Ok(false) => Err(fault_at(line, Kind::Repeated)),
            Err(_refused) => Err(TextFault::OutOfMemory),
        }
    }

    // The points that were read, in their order.
    pub(crate) fn into_points(self) -> Vec<FilePoint>
        ensures { map file_point result.items ≡ self }
    {
        let Gathered {
            points,
            seen: _seen,
        } = self;
        points
    }
}
