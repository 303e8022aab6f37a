ghost use Rattle.std.specs.Prelude.{◌≡◌, ◌≤◌, ◌<◌, ◌-◌, ◌+◌, ◌*◌, ◌↔◌, IsTrue, IfOk, MatchResult, length, map};
ghost use Rattle.std.specs.List.{All};
ghost use Rattle.cayley.specs.Cells.{IsOf};
ghost use Rattle.cayley.specs.Files.{between_problem, plain_problem};
ghost use Rattle.cayley.specs.Problems.{IsStill, point_at, version1, version2, version_number, with_rank};
ghost use Rattle.cayley.specs.Reaches.{IsWithinReach};
ghost use Rattle.cayley.specs.Rows.{edge_row, edge_rows};
ghost use Rattle.cayley.specs.Shapes.{AreSecondHeights, IsBetweenFault, IsProblemFault};
ghost use Rattle.cayley.specs.Stored.{point, problem_of, version_of};
ghost use Rattle.cayley.specs.Valid.{IsCornerCoordinate, IsValidProblem, support_at, file_count_at};
ghost use Rattle.int_vectors.specs.Vectors.{Each};

use crate::cells::Cell;
use crate::faults::ShapeFault;
use crate::files::LiftFile;
use crate::plain::resting_supports;
use crate::points::{Point, Support};
use crate::positions::has_positions;
use crate::problem_shapes::{are_still, check_problem};
use crate::ranks::{first_ranks, rank_at};
use crate::reaches::farthest;
use crate::rows::{pair_row, rows_of};
use crate::second_heights::{check_second, moved_supports};
use crate::versions::Version;
use int_vectors::IntVec;
use std::alloc::Global;
use std::marker::Model;
use wide_int::OutOfMemory;

/// Supports of points that have a height at every time, valid by the type.
///
/// The dimension n is from 1 to 16, and there are n supports of points with n coordinates each. In
/// each support stand first 1 to 1,000 file points of distinct coordinates; then there is either no
/// corner in every support, or there are n + 1 corners of speed 1 in every support. In the second
/// version, and where there are corners, every file point has speed 0.
#[derive(Drop)]
pub struct Problem {
    version: Version,
    dim: usize,
    supports: Vec<Support>,
    // The rank of each support's first point in the second version.
    firsts: Vec<u32>,
    reach: u128,
}

impl Model for Problem {
    ghost use Rattle.std.specs.Prelude.{◌≡◌};
    ghost use Rattle.std.specs.List.{All};
    ghost use Rattle.cayley.specs.Problems.{Problem};
    ghost use Rattle.cayley.specs.Ranks.{firsts_from};
    ghost use Rattle.cayley.specs.Reaches.{IsStoredReach};
    ghost use Rattle.cayley.specs.Stored.{problem_of, version_of};
    ghost use Rattle.cayley.specs.Valid.{IsValidProblem};

    ghost Value = { Problem };

    ghost view = { λ p. problem_of (version_of p.version) p.dim p.supports.items };

    ghost invariant = { λ p. IsValidProblem (problem_of (version_of p.version) p.dim p.supports.items) × All (IsStoredReach p.reach) p.supports.items
        × (p.firsts.items ≡ firsts_from 1 p.supports.items) };
}

impl Problem {
    /// The problem of these supports, of the first version.
    ///
    /// `BadShape` exactly where `dim` isn't from 1 to 16, there aren't `dim` supports, a support
    /// doesn't have 1 to 1,000 file points, there are other corners than none in every support or
    /// n + 1 in every support, a point doesn't have `dim` coordinates, a file point doesn't have
    /// speed 0 or a corner speed 1. Else, of the first point in order that breaks a rule, `Range`
    /// where a number of it is out of its limits, and otherwise `Repeated`, since it is a file point
    /// with the coordinates of an earlier one. A corner's coordinates are from -33,000,000 to
    /// 33,000,000, its base from 0 to 1,000,000,000. `StartRange` never comes.
    pub fn new(alloc: Global, dim: usize, supports: Vec<Support>) -> Result<Problem, ShapeFault>
        ensures { let given = problem_of version1 dim supports.items in MatchResult result (λ p. IsValidProblem given × (p ≡ given)) (IsProblemFault given) }
    {
        Problem::checked(alloc, Version::First, dim, supports)
    }

    /// The problem of these supports, of the second version, with the faults of `new`.
    pub fn perturbed(
        alloc: Global,
        dim: usize,
        supports: Vec<Support>,
    ) -> Result<Problem, ShapeFault>
        ensures { let given = problem_of version2 dim supports.items in MatchResult result (λ p. IsValidProblem given × (p ≡ given)) (IsProblemFault given) }
    {
        Problem::checked(alloc, Version::Second, dim, supports)
    }

    fn checked(
        alloc: Global,
        version: Version,
        dim: usize,
        supports: Vec<Support>,
    ) -> Result<Problem, ShapeFault>
        ensures { let given = problem_of (version_of version) dim supports.items in MatchResult result (λ p. IsValidProblem given × (p ≡ given)) (IsProblemFault given) }
    {
        check_problem(alloc, dim, &supports)?;
        let problem = Problem::of_parts(alloc, version, dim, supports)?;
        Ok(problem)
    }

    fn of_parts(
        alloc: Global,
        version: Version,
        dim: usize,
        supports: Vec<Support>,
    ) -> Result<Problem, OutOfMemory>
        requires { IsValidProblem (problem_of (version_of version) dim supports.items) }
        ensures { IfOk result (λ p. p ≡ problem_of (version_of version) dim supports.items) }
    {
        let firsts = first_ranks(alloc, &supports)?;
        let reach = farthest(&supports);
        Ok(Problem {
            version,
            dim,
            supports,
            firsts,
            reach,
        })
    }

    /// The problem of the file's points alone, of the file's version.
    pub fn plain(alloc: Global, file: &LiftFile) -> Result<Problem, OutOfMemory>
        ensures { IfOk result (λ p. p ≡ plain_problem file.now) }
    {
        let supports = resting_supports(alloc, file.supports())?;
        Problem::of_parts(alloc, file.form(), file.dim(), supports)
    }

    /// The problem of the file's points, of the first version, in which each point goes from its
    /// height in the file at time 0 to its second height at time 1. There are n lists of second
    /// heights, one number for each point.
    ///
    /// `BadShape` exactly where there aren't so many numbers. Else `Range` exactly where one of
    /// them isn't from -1,000,000,000 to 1,000,000,000, with the first such point. `Repeated` and
    /// `StartRange` never come.
    pub fn between(
        alloc: Global,
        file: &LiftFile,
        second: &[Vec<i64>],
    ) -> Result<Problem, ShapeFault>
        ensures { let given = map (λ s. s.items) second.now in
            MatchResult result (λ p. AreSecondHeights file.now given × (p ≡ between_problem file.now given)) (IsBetweenFault file.now given) }
    {
        let points = file.supports();
        check_second(points, second)?;
        let supports = moved_supports(alloc, points, second)?;
        let problem = Problem::of_parts(alloc, Version::First, file.dim(), supports)?;
        Ok(problem)
    }

    /// The number of the form of the problem's heights: 1 as they are, 2 perturbed.
    pub fn version(&self) -> u8
        ensures { result ≡ version_number self.now.version }
    {
        self.version.number()
    }

    /// Whether every file point has speed 0.
    pub fn is_still(&self) -> bool
        ensures { IsTrue result ↔ IsStill self.now }
    {
        are_still(&self.supports)
    }

    /// The dimension n, which is also the number of supports.
    pub fn dim(&self) -> usize
        ensures value { result ≡ self.now.dimension }
        ensures valid { IsValidProblem self.now }
    {
        self.dim
    }

    /// A bound on the absolute values of all coordinates.
    pub fn reach(&self) -> u128
        ensures { IsWithinReach result self.now }
    {
        self.reach
    }

    /// The number of points of support i, counted from 1.
    pub fn count(&self, i: u32) -> u32
        requires least { 1 ≤ i }
        requires greatest { i ≤ self.now.dimension }
        ensures { result ≡ length (support_at self.now i) }
    {
        self.support(i).points.len() as u32
    }

    /// The number of file points of support i, counted from 1.
    pub fn file_count(&self, i: u32) -> u32
        requires least { 1 ≤ i }
        requires greatest { i ≤ self.now.dimension }
        ensures { result ≡ file_count_at self.now i }
    {
        self.support(i).file
    }

    /// The point at a position of support i; both count from 1.
    pub fn point(&self, i: u32, position: u32) -> &Point
        requires least { 1 ≤ i }
        requires greatest { i ≤ self.now.dimension }
        requires first { 1 ≤ position }
        requires last { position ≤ length (support_at self.now i) }
        ensures value { point result.now ≡ with_rank 0 (point_at (support_at self.now i) position) }
        ensures valid { IsValidProblem self.now }
    {
        &self.support(i).points[position as usize - 1]
    }

    /// The rank of the point at a position of support i; both count from 1. It is 0 in the first
    /// version, and at the first corner and the one of direction i. The other points have the ranks
    /// 1, 2, .. in order of support and position.
    pub fn rank(&self, i: u32, position: u32) -> u32
        requires least { 1 ≤ i }
        requires greatest { i ≤ self.now.dimension }
        requires first { 1 ≤ position }
        requires last { position ≤ length (support_at self.now i) }
        ensures { result ≡ (point_at (support_at self.now i) position).rank }
    {
        match self.version {
            Version::First => 0,
            Version::Second => rank_at(i, self.support(i), self.firsts[i as usize - 1], position),
        }
    }

    /// Whether the point at a position of support i is a file point; both count from 1.
    pub fn is_file_point(&self, i: u32, position: u32) -> bool
        requires least { 1 ≤ i }
        requires greatest { i ≤ self.now.dimension }
        ensures { IsTrue result ↔ position ≤ file_count_at self.now i }
    {
        position <= self.support(i).file
    }

    /// Whether the cell has n pairs and each position is at most its support's count.
    pub fn contains(&self, cell: &Cell) -> bool
        ensures { IsTrue result ↔ IsOf self.now cell.now }
    {
        has_positions(&self.supports, cell.pairs())
    }

    /// The n rows of a cell that the problem contains, one for each pair (a, b): the n differences
    /// of the coordinates of b and a, the difference of their bases, that of their speeds, and n
    /// numbers that are 0 but for a 1 in the place of the support. These numbers always fit.
    pub fn edge_rows(&self, alloc: Global, cell: &Cell) -> Result<Vec<IntVec>, OutOfMemory>
        requires { IsOf self.now cell.now }
        ensures value { IfOk result (λ made. made.items ≡ edge_rows self.now cell.now) }
        ensures count { IfOk result (λ made. length made.items ≡ self.now.dimension) }
        ensures widths { IfOk result (λ made. All (λ row. length row ≡ 2 * self.now.dimension + 2) made.items) }
        ensures valid { IsValidProblem self.now }
    {
        rows_of(alloc, self.dim, &self.supports, cell.pairs())
    }

    /// The row for a pair of positions of support i, counted from 1, as in `edge_rows`.
    pub fn edge_row(&self, alloc: Global, i: u32, pair: (u32, u32)) -> Result<IntVec, OutOfMemory>
        requires least { 1 ≤ i }
        requires greatest { i ≤ self.now.dimension }
        requires pair { (1 ≤ pair.0) × (pair.0 < pair.1) × (pair.1 ≤ length (support_at self.now i)) }
        ensures { let s = support_at self.now i in
            IfOk result (λ row. row ≡ edge_row self.now.dimension (i - 1) (point_at s pair.0) (point_at s pair.1)) }
    {
        let points = &self.support(i).points;
        pair_row(alloc, self.dim, i as usize - 1, points, pair)
    }

    // Support i, counted from 1.
    fn support(&self, i: u32) -> &Support
        requires least { 1 ≤ i }
        requires greatest { i ≤ self.now.dimension }
        ensures points { map point result.now.points.items ≡ map (with_rank 0) (support_at self.now i) }
        ensures count { length result.now.points.items ≡ length (support_at self.now i) }
        ensures file { result.now.file ≡ file_count_at self.now i }
        ensures files { result.now.file ≤ 1000 }
        ensures few { length result.now.points.items ≤ 2000 }
        ensures small { All (λ x. (length x.coords ≡ self.now.dimension) × Each x.coords IsCornerCoordinate) result.now.points.items }
        ensures dimension { self.now.dimension ≤ 16 }
        ensures valid { IsValidProblem self.now }
    {
        &self.supports[i as usize - 1]
    }
}
