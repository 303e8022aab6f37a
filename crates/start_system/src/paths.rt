ghost use Rattle.std.specs.Prelude.{◌≡◌, IfOk, MatchResult, length, map};
ghost use Rattle.cayley.specs.Files.{plain_problem};
ghost use Rattle.cayley.specs.Paths.{path, path_supports, starts_of};
ghost use Rattle.cayley.specs.Problems.{version2, file_points, IsStill};
ghost use Rattle.cayley.specs.Stored.{file_point, point};
ghost use Rattle.cayley.specs.Ties.{IsTieFree};
ghost use Rattle.cayley.specs.Valid.{IsValidFile};
ghost use Rattle.cayley.specs.declared.faults.ShapeFault.{ShapeFault};
ghost use Rattle.start_system.specs.Corners.{ArePathParts};
ghost use Rattle.start_system.specs.Started.{IsStarted, IsSearched};

use crate::corners::path_points;
use crate::lists::push;
use crate::starts::default_starts;
use cayley::{FilePoint, LiftFile, Problem, ShapeFault, Support, Version};
use std::alloc::Global;
use wide_int::OutOfMemory;

// The supports of a path: each has its file points, then its corners.
fn path_supports(
    alloc: Global,
    supports: &[Vec<FilePoint>],
    starts: &[Vec<i64>],
) -> Result<Vec<Support>, OutOfMemory>
    requires { ArePathParts (map (λ s. map file_point s.items) supports.now) (map (λ s. s.items) starts.now) }
    ensures files { IfOk result (λ made. map (λ s. s.file) made.items ≡ map (λ s. length s.items) supports.now) }
    ensures points { IfOk result (λ made. map (λ s. map point s.points.items) made.items ≡ path_supports 1 (map (λ s. map file_point s.items) supports.now) (map (λ s. s.items) starts.now)) }
{
    let mut made = Vec::new(alloc);
    for place in 0..supports.len() {
        let points = path_points(alloc, place + 1, &supports[place], &starts[place])?;
        let file = supports[place].len() as u32;
        push(&mut made, Support { points, file })?;
    }
    Ok(made)
}

// The supports of the path of a file, with its start heights or the default ones.
fn supports_of(alloc: Global, file: &LiftFile) -> Result<Vec<Support>, OutOfMemory>
    ensures files { IfOk result (λ made. map (λ s. s.file) made.items ≡ map length file.now.supports) }
    ensures points { IfOk result (λ made. map (λ s. map point s.points.items) made.items ≡ path_supports 1 file.now.supports (starts_of file.now)) }
{
    match file.starts() {
        Some(starts) => path_supports(alloc, file.supports(), starts),
        None => {
            let starts = default_starts(alloc, file.dim())?;
            path_supports(alloc, file.supports(), &starts)
        }
    }
}

// The one fault that a path can meet.
fn memory_fault(fault: ShapeFault) -> OutOfMemory
    requires { fault ≡ ShapeFault.OutOfMemory }
{
    match fault {
        ShapeFault::OutOfMemory => OutOfMemory,
        _ => unreachable!(),
    }
}

// The problem of the supports of a file's path, in the file's version.
fn checked(alloc: Global, file: &LiftFile, supports: Vec<Support>) -> Result<Problem, ShapeFault>
    requires files { map (λ s. s.file) supports.items ≡ map length file.now.supports }
    requires points { map (λ s. map point s.points.items) supports.items ≡ path_supports 1 file.now.supports (starts_of file.now) }
    ensures path { MatchResult result (λ p. p ≡ path file.now) (λ fault. fault ≡ ShapeFault.OutOfMemory) }
    ensures valid { IsValidFile file.now }
{
    let dim = file.dim();
    match file.form() {
        Version::First => Problem::new(alloc, dim, supports),
        Version::Second => Problem::perturbed(alloc, dim, supports),
    }
}

// The same, where no fault is left but want of memory.
fn path_of(alloc: Global, file: &LiftFile, supports: Vec<Support>) -> Result<Problem, OutOfMemory>
    requires files { map (λ s. s.file) supports.items ≡ map length file.now.supports }
    requires points { map (λ s. map point s.points.items) supports.items ≡ path_supports 1 file.now.supports (starts_of file.now) }
    ensures path { IfOk result (λ p. p ≡ path file.now) }
    ensures valid { IsValidFile file.now }
{
    match checked(alloc, file, supports) {
        Ok(problem) => Ok(problem),
        Err(fault) => Err(memory_fault(fault)),
    }
}

/// The path of a file, in the file's version: in each support the file points with speed 0, then
/// the n + 1 corners with speed 1, which have the file's start heights or the default ones.
///
/// The corners of support i are the least coordinates m of its file points and, for each direction
/// k, the point m + d e_k, where d is the greater of 1 and the greatest sum of the coordinates of
/// a file point less m. The start height of m and of direction i is 0.
pub fn with_corners(alloc: Global, file: &LiftFile) -> Result<Problem, OutOfMemory>
    ensures path { IfOk result (λ p. p ≡ path file.now) }
    ensures started { IfOk result IsStarted }
    ensures still { IfOk result IsStill }
    ensures points { IfOk result (λ p. file_points p ≡ plain_problem file.now) }
    ensures searched { IfOk result IsSearched }
    ensures free { file.now.version ≡ version2 → IfOk result IsTieFree }
{
    let supports = supports_of(alloc, file)?;
    path_of(alloc, file, supports)
}
