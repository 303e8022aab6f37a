ghost use Rattle.std.specs.Prelude.{◌≡◌, ◌≤◌, ◌-◌, ◌↔◌, IsTrue, MatchOption, MatchResult, ℕ, map, length};
ghost use Rattle.std.specs.List.{All};
ghost use Rattle.std.specs.Option.{option_map};
ghost use Rattle.cayley.specs.Stored.{file_point, file_of};
ghost use Rattle.cayley.specs.Problems.{Version};
ghost use Rattle.cayley.specs.Shapes.{IsFaulty, IsFileFault, IsFirstStart, IsOutside, IsSupportFault, IsPlaceFault, file_support};
ghost use Rattle.int_vectors.specs.Vectors.{Each};
ghost use Rattle.cayley.specs.Valid.{HasFileShape, IsStart, IsValidFile};

use crate::faults::ShapeFault;
use crate::limits::{DIMENSIONS, POINTS, are_starts, is_within_file};
use crate::points::FilePoint;
use std::alloc::Global;
use std::collections::BTreeSet;

// Whether there are 1 to 1,000 points of `dim` coordinates each.
fn has_points(dim: usize, points: &[FilePoint]) -> bool
    ensures { IsTrue result ↔ ((1 ≤ length points.now) × (length points.now ≤ 1000) × All (λ x. length x.coords ≡ dim) points.now) }
{
    1 <= points.len() && points.len() <= POINTS && points.iter().all(|x| x.coords.len() == dim)
}

fn have_points(dim: usize, supports: &[Vec<FilePoint>]) -> bool
    ensures { IsTrue result ↔ All (λ s. (1 ≤ length s.items) × (length s.items ≤ 1000) × All (λ x. length x.coords ≡ dim) s.items) supports.now }
{
    supports.iter().all(|points| has_points(dim, points))
}

// Whether start heights, if they are given, are `dim` lists of `dim - 1` numbers.
fn have_starts(dim: usize, starts: &Option<Vec<Vec<i64>>>) -> bool
    requires { 1 ≤ dim }
    ensures { IsTrue result ↔ MatchOption starts.now (Unit {0}) (λ starts. (length starts.items ≡ dim) × All (λ s. length s.items ≡ dim - 1) starts.items) }
{
    match starts {
        Some(starts) => starts.len() == dim && starts.iter().all(|s| s.len() == dim - 1),
        None => true,
    }
}

// Whether the dimension is from 1 to 16, and as many supports have their points.
fn has_supports(dim: usize, supports: &[Vec<FilePoint>]) -> bool
    ensures { IsTrue result ↔ ((1 ≤ dim) × (dim ≤ 16) × (length supports.now ≡ dim)
        × All (λ s. (1 ≤ length s.items) × (length s.items ≤ 1000) × All (λ x. length x.coords ≡ dim) s.items) supports.now) }
{
    1 <= dim && dim <= DIMENSIONS && supports.len() == dim && have_points(dim, supports)
}

// Whether dimension, supports and start heights have the shape of a lift file.
fn has_file_shape(dim: usize, supports: &[Vec<FilePoint>], starts: &Option<Vec<Vec<i64>>>) -> bool
    ensures { (version : Version) → IsTrue result ↔ HasFileShape (file_of version dim (map (λ s. s.items) supports.now) (option_map (λ ss. map (λ s. s.items) ss.items) starts.now)) }
{
    has_supports(dim, supports) && have_starts(dim, starts)
}

// The first fault of support `i`. The coordinates seen so far are kept in order.
fn check_support(alloc: Global, i: u32, points: &[FilePoint]) -> Result<(), ShapeFault>
    requires { length points.now ≤ 1000 }
    ensures { MatchResult result (λ _. (p : ℕ) → ¬ (IsFaulty (map file_point points.now) p))
        (IsSupportFault i (IsFaulty (map file_point points.now)) (IsOutside (map file_point points.now))) }
{
    let mut seen = BTreeSet::new(alloc);
    for (k, x) in points.iter().enumerate() {
        let position = k as u32 + 1;
        if !is_within_file(x) {
            return Err(ShapeFault::Range {
                support: i,
                position,
            });
        }
        match seen.insert(x.coords.as_slice()) {
            Ok(true) => {}
            Ok(false) => return Err(ShapeFault::Repeated {
                support: i,
                position,
            }),
            Err(_) => return Err(ShapeFault::OutOfMemory),
        }
    }
    Ok(())
}

// The first fault of the points of a file.
fn check_points(alloc: Global, supports: &[Vec<FilePoint>]) -> Result<(), ShapeFault>
    requires few { length supports.now ≤ 16 }
    requires counts { All (λ s. length s.items ≤ 1000) supports.now }
    ensures { let points = map (λ s. map file_point s.items) supports.now in
        MatchResult result (λ _. (j q : ℕ) → 1 ≤ j → ¬ (IsFaulty (file_support points j) q))
        (IsPlaceFault (λ j q. IsFaulty (file_support points j) q) (λ j q. IsOutside (file_support points j) q)) }
{
    for (k, points) in supports.iter().enumerate() {
        check_support(alloc, k as u32 + 1, points)?;
    }
    Ok(())
}

// The first list of start heights with one out of its limits, counted from 1.
fn first_faulty_start(starts: &[Vec<i64>]) -> Option<u32>
    requires { length starts.now ≤ 16 }
    ensures { let heights = map (λ s. s.items) starts.now in
        MatchOption result (Each heights (λ s. Each s IsStart)) (IsFirstStart heights) }
{
    for (k, heights) in starts.iter().enumerate() {
        if !are_starts(heights) {
            return Some(k as u32 + 1);
        }
    }
    None
}

// The first support with a start height out of its limits, if start heights are given.
fn faulty_start(starts: &Option<Vec<Vec<i64>>>) -> Option<u32>
    requires { MatchOption starts.now (Unit {0}) (λ starts. length starts.items ≤ 16) }
    ensures { let heights = option_map (λ ss. map (λ s. s.items) ss.items) starts.now in
        MatchOption result (MatchOption heights (Unit {0}) (λ starts. Each starts (λ s. Each s IsStart)))
        (λ i. MatchOption heights ⊥ (λ starts. IsFirstStart starts i)) }
{
    match starts {
        Some(starts) => first_faulty_start(starts),
        None => None,
    }
}

/// Whether these make a lift file, and the fault where they don't.
pub(crate) fn check_file(
    alloc: Global,
    dim: usize,
    supports: &[Vec<FilePoint>],
    starts: &Option<Vec<Vec<i64>>>,
) -> Result<(), ShapeFault>
    ensures { (version : Version) → let given = file_of version dim (map (λ s. s.items) supports.now) (option_map (λ ss. map (λ s. s.items) ss.items) starts.now) in
        MatchResult result (λ _. IsValidFile given) (IsFileFault given) }
{
    if !has_file_shape(dim, supports, starts) {
        return Err(ShapeFault::BadShape);
    }
    check_points(alloc, supports)?;
    match faulty_start(starts) {
        Some(support) => Err(ShapeFault::StartRange { support }),
        None => Ok(()),
    }
}
