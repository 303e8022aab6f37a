// The cyclic roots systems.
ghost use Rattle.std.specs.Prelude.{◌≡◌, ◌<◌, ◌≤◌, IfOk, map};
ghost use Rattle.family_gen.specs.Cyclic as family;
ghost use Rattle.family_gen.specs.Cyclic.{entry_of, cyclic_file, cyclic_supports};

use crate::lifting::lift;
use cayley::LiftFile;
use int_vectors::IntVec;
use std::alloc::Global;
use wide_int::OutOfMemory;

// 1 where place `p` is one of the `k` places from `i` on, counted round, and else 0.
#[tactic(auto, unfolding(crate::specs::Cyclic::entry_of))]
fn entry(n: usize, k: usize, i: usize, p: usize) -> i128
    requires few { n ≤ 16 }
    requires first { i < n }
    requires place { p < n }
    ensures { result ≡ entry_of n k i p }
{
    if (p + n - i) % n < k { 1 } else { 0 }
}

// The vector with ones in the `k` places from `i` on, counted round.
fn window(alloc: Global, n: usize, k: usize, i: usize) -> Result<IntVec, OutOfMemory>
    requires few { n ≤ 16 }
    requires first { i < n }
    ensures { IfOk result (λ v. v ≡ family.window n k i) }
{
    let Ok(mut entries) = Vec::with_capacity(alloc, n) else {
        return Err(OutOfMemory);
    };
    for p in 0..n {
        if let Err(_) = entries.push(entry(n, k, i, p)) {
            return Err(OutOfMemory);
        }
    }
    Ok(IntVec::from_vec(entries))
}

// The vectors with `k` ones that stand together, by the first of these.
fn windows(alloc: Global, n: usize, k: usize) -> Result<Vec<IntVec>, OutOfMemory>
    requires { n ≤ 16 }
    ensures { IfOk result (λ made. made.items ≡ family.windows n k) }
{
    let Ok(mut made) = Vec::with_capacity(alloc, n) else {
        return Err(OutOfMemory);
    };
    for i in 0..n {
        let vector = window(alloc, n, k, i)?;
        if let Err(_) = made.push(vector) {
            return Err(OutOfMemory);
        }
    }
    Ok(made)
}

// The vector of ones and then the zero vector.
fn product_less_one(alloc: Global, n: usize) -> Result<Vec<IntVec>, OutOfMemory>
    requires least { 1 ≤ n }
    requires few { n ≤ 16 }
    ensures { IfOk result (λ made. made.items ≡ family.last_support n) }
{
    let ones = window(alloc, n, n, 0)?;
    let zeros = window(alloc, n, 0, 0)?;
    let mut made = Vec::new(alloc);
    if let Err(_) = made.push(ones) {
        return Err(OutOfMemory);
    }
    if let Err(_) = made.push(zeros) {
        return Err(OutOfMemory);
    }
    Ok(made)
}

fn supports(alloc: Global, n: usize) -> Result<Vec<Vec<IntVec>>, OutOfMemory>
    requires least { 1 ≤ n }
    requires few { n ≤ 16 }
    ensures { IfOk result (λ made. map (λ s. s.items) made.items ≡ cyclic_supports n) }
{
    let Ok(mut made) = Vec::with_capacity(alloc, n) else {
        return Err(OutOfMemory);
    };
    for k in 1..n {
        let support = windows(alloc, n, k)?;
        if let Err(_) = made.push(support) {
            return Err(OutOfMemory);
        }
    }
    let last = product_less_one(alloc, n)?;
    if let Err(_) = made.push(last) {
        return Err(OutOfMemory);
    }
    Ok(made)
}

/// The supports of the cyclic `n`-roots system with heights from the generator behind `seed`.
///
/// For k below n support k has the n vectors with ones in k places that stand together, counted round,
/// by the first of these places. Support n has the vector of ones and then the zero vector. Heights are
/// those of [`lift`](crate::lift). `OutOfMemory` is the one refusal.
pub fn cyclic(alloc: Global, n: usize, seed: u64) -> Result<LiftFile, OutOfMemory>
    requires least { 2 ≤ n }
    requires greatest { n ≤ 16 }
    ensures { IfOk result (λ file. file ≡ cyclic_file n seed) }
{
    let supports = supports(alloc, n)?;
    lift(alloc, n, supports, seed)
}
