// Scattered points.
ghost use Rattle.std.specs.Prelude.{◌≡◌, ◌+◌, ◌*◌, ◌^◌, ◌<◌, ◌≤◌, ◌++◌, ◌∷◌, [], pos, IfOk, OnOk, length, map, if◌then◌else◌, ◌==◌};
ghost use Rattle.int_vectors.specs.Vectors.{Each};
ghost use Rattle.cayley.specs.Stored.{file_point};
ghost use Rattle.family_gen.specs.Generator.{number};
ghost use Rattle.family_gen.specs.Scatter as family;
ghost use Rattle.family_gen.specs.Scatter.{is_among, next, next_free, scatter_file, scattered, scattered_support};
ghost use Rattle.family_gen.specs.Seen.{coordinates_of};

use crate::generator::Generator;
use cayley::{FilePoint, LiftFile, Version};
use int_vectors::IntVec;
use std::alloc::Global;
use std::collections::BTreeSet;
use std::marker::Model;
use wide_int::OutOfMemory;

// The points of a support that were made so far, and their coordinates in order.
#[derive(Drop)]
struct Scattered {
    points: Vec<FilePoint>,
    taken: BTreeSet<Vec<u64>>,
}

impl Model for Scattered {
    ghost use Rattle.std.specs.Prelude.{List, map};
    ghost use Rattle.cayley.specs.Files.{FilePoint};
    ghost use Rattle.cayley.specs.Stored.{file_point};
    ghost use Rattle.family_gen.specs.Seen.{HasCoordinatesOf};

    ghost Value = { List FilePoint };

    ghost view = { λ s. map file_point s.points.items };

    ghost invariant = { λ s. HasCoordinatesOf s.taken (map file_point s.points.items) };
}

// A coordinate after a step: where it rises it is 1 more, or 0 behind the greatest.
fn moved(c: u64, side: u64, rises: bool) -> u64
    requires limit { side ≤ 1000000 }
    requires within { c ≤ side }
    ensures { result ≡ (if rises then (if c == side then 0 else c + 1) else c) }
{
    if !rises {
        c
    } else if c == side {
        0
    } else {
        c + 1
    }
}

// Moves to the next point of the grid, and from the last one to the first.
fn move_on(coords: &mut [u64], side: u64)
    requires limit { side ≤ 1000000 }
    requires within { Each coords.old (λ c. c ≤ side) }
    ensures { coords.new ≡ next side coords.old }
{
    let mut rises = true;
    let mut place = coords.len();
    'carry: while place > 0 {
        place -= 1;
        let before = coords[place];
        coords[place] = moved(before, side, rises);
        rises = (before == side) & rises;
    }
}

// The next `n` coordinates from 0 to `side`.
fn drawn(
    alloc: Global,
    n: usize,
    side: u64,
    generator: &mut Generator,
) -> Result<Vec<u64>, OutOfMemory>
    requires { side ≤ 1000000 }
    ensures coords { IfOk result (λ made. made.items ≡ family.drawn generator.old.last side 1 n) }
    ensures last { OnOk result (generator.new.last ≡ number generator.old.last n) }
{
    let Ok(mut made) = Vec::with_capacity(alloc, n) else {
        return Err(OutOfMemory);
    };
    for _place in 0..n {
        if let Err(_) = made.push(generator.coordinate(side)) {
            return Err(OutOfMemory);
        }
    }
    Ok(made)
}

// The vector of these coordinates.
fn vector(alloc: Global, coords: &[u64]) -> Result<IntVec, OutOfMemory>
    ensures { IfOk result (λ v. v ≡ map pos coords.now) }
{
    let Ok(mut entries) = Vec::with_capacity(alloc, coords.len()) else {
        return Err(OutOfMemory);
    };
    for c in coords {
        if let Err(_) = entries.push(i128::from(*c)) {
            return Err(OutOfMemory);
        }
    }
    Ok(IntVec::from_vec(entries))
}

impl Scattered {
    fn new(alloc: Global) -> Scattered
        ensures { result ≡ [] }
    {
        Scattered {
            points: Vec::new(alloc),
            taken: BTreeSet::new(alloc),
        }
    }

    // How many points there are.
    fn len(&self) -> usize
        ensures { result ≡ length self.now }
    {
        self.points.len()
    }

    // Whether a point has these coordinates.
    fn has(&self, coords: &Vec<u64>) -> bool
        ensures { result ≡ is_among coords.now.items (map coordinates_of self.now) }
    {
        self.taken.contains(coords)
    }

    // Moves coordinates to the next ones that no point has, if a point has them.
    fn move_to_free(&self, coords: &mut Vec<u64>, side: u64)
        requires limit { side ≤ 1000000 }
        requires some { 1 ≤ length coords.old.items }
        requires within { Each coords.old.items (λ c. c ≤ side) }
        requires room { length self.now < (side + 1) ^ length coords.old.items }
        ensures { coords.new.items ≡ next_free side (map coordinates_of self.now) coords.old.items }
    {
        for _turn in 0..self.len() {
            if !self.has(coords) {
                return;
            }
            move_on(coords, side);
        }
    }

    // Adds a point with coordinates that no point has.
    fn add(&mut self, alloc: Global, coords: Vec<u64>, height: i64) -> Result<(), OutOfMemory>
        ensures { OnOk result (self.new ≡ self.old ++ record { coordinates = map pos coords.items; height = height } ∷ []) }
    {
        let vector = vector(alloc, &coords)?;
        if self.points.reserve(1).is_err() {
            return Err(OutOfMemory);
        }
        if let Err(_) = self.taken.insert(coords) {
            return Err(OutOfMemory);
        }
        self.points.push_reserved(FilePoint {
            coords: vector,
            height,
        });
        Ok(())
    }

    // Draws a point, and adds the next one that is free.
    fn draw(
        &mut self,
        alloc: Global,
        n: usize,
        side: u64,
        generator: &mut Generator,
    ) -> Result<(), OutOfMemory>
        requires limit { side ≤ 1000000 }
        requires some { 1 ≤ n }
        requires room { length self.old < (side + 1) ^ n }
        ensures point { OnOk result (self.new ≡ self.old ++ scattered generator.old.last side n 1 1 (map coordinates_of self.old)) }
        ensures last { OnOk result (generator.new.last ≡ number generator.old.last (n + 1)) }
    {
        let height = generator.height();
        let mut coords = drawn(alloc, n, side, generator)?;
        self.move_to_free(&mut coords, side);
        self.add(alloc, coords, height)
    }

    // The points in their order.
    fn into_points(self) -> Vec<FilePoint>
        ensures { map file_point result.items ≡ self }
    {
        let Scattered {
            points,
            taken: _taken,
        } = self;
        points
    }
}

// A support of `m` points.
fn support(
    alloc: Global,
    n: usize,
    m: usize,
    side: u64,
    generator: &mut Generator,
) -> Result<Vec<FilePoint>, OutOfMemory>
    requires limit { side ≤ 1000000 }
    requires some { 1 ≤ n }
    requires room { m ≤ (side + 1) ^ n }
    ensures points { IfOk result (λ made. map file_point made.items ≡ scattered generator.old.last side n 1 m []) }
    ensures last { OnOk result (generator.new.last ≡ number generator.old.last (m * (n + 1))) }
{
    let mut made = Scattered::new(alloc);
    for _turn in 0..m {
        made.draw(alloc, n, side, generator)?;
    }
    Ok(made.into_points())
}

/// `n` supports of `m` points whose coordinates lie between 0 and `side`, with heights from the generator
/// behind `seed`; the same arguments give the same file.
///
/// Support by support and point by point one number gives the height, the next `n` the coordinates. While the
/// point equals an earlier one of its support it goes to the next: its last coordinate rises by 1; one that
/// would exceed `side` becomes 0, and the one before it rises; the zero vector follows the last point.
/// `OutOfMemory` is the one refusal.
pub fn scatter(
    alloc: Global,
    n: usize,
    m: usize,
    side: u64,
    seed: u64,
) -> Result<LiftFile, OutOfMemory>
    requires least { 1 ≤ n }
    requires greatest { n ≤ 16 }
    requires some { 1 ≤ m }
    requires count { m ≤ 1000 }
    requires limit { side ≤ 1000000 }
    requires room { m ≤ (side + 1) ^ n }
    ensures { IfOk result (λ file. file ≡ scatter_file n m side seed) }
{
    let mut generator = Generator { last: seed };
    let Ok(mut supports) = Vec::with_capacity(alloc, n) else {
        return Err(OutOfMemory);
    };
    for _turn in 0..n {
        let points = support(alloc, n, m, side, &mut generator)?;
        if let Err(_) = supports.push(points) {
            return Err(OutOfMemory);
        }
    }
    Ok(LiftFile::from_parts(Version::First, n, supports, None))
}
