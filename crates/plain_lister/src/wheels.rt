ghost use Rattle.std.specs.Prelude.{◌≡◌, ◌<◌, ◌≤◌, ◌+◌, IfOk, MatchOption, length};
ghost use Rattle.int_vectors.specs.Vectors.{Each};
ghost use Rattle.plain_lister.specs.Choices.{most_points, HavePairs};
ghost use Rattle.plain_lister.specs.Order as order;
ghost use Rattle.plain_lister.specs.Order.{firsts};
ghost use Rattle.plain_lister.specs.Wheels.{shown, IsWheel, Show};

use itertools::Itertools;
use std::alloc::{AllocError, Global};

/// The pairs of positions of a support in order, and the place of the chosen one.
#[derive(Drop)]
pub(crate) struct Wheel {
    pairs: Vec<(u32, u32)>,
    at: usize,
}

// All pairs of `count` positions in order.
fn all_pairs(alloc: Global, count: u32) -> Result<Vec<(u32, u32)>, AllocError>
    requires { count ≤ most_points }
    ensures { IfOk result (λ made. made.items ≡ order.all_pairs count) }
{
    let mut made = Vec::new(alloc);
    for pair in (1..count + 1).tuple_combinations(alloc)? {
        made.push(pair?)?;
    }
    Ok(made)
}

impl Wheel {
    // The pairs of `count` positions, at the first of them.
    fn new(alloc: Global, count: u32) -> Result<Wheel, AllocError>
        requires least { 2 ≤ count }
        requires greatest { count ≤ most_points }
        ensures { IfOk result (λ wheel. IsWheel count wheel (1, 2)) }
    {
        let pairs = all_pairs(alloc, count)?;
        Ok(Wheel { pairs, at: 0 })
    }

    // Goes to the next pair. `None` where there is none: then the first is chosen again.
    pub(crate) fn turn(&mut self) -> Option<(u32, u32)>
        requires { self.old.at < length self.old.pairs.items }
        ensures pairs { self.new.pairs ≡ self.old.pairs }
        ensures turned { MatchOption result
            ((self.old.at + 1 ≡ length self.old.pairs.items) × (self.new.at ≡ 0))
            (λ next. (self.new.at ≡ self.old.at + 1) × (self.new.at < length self.old.pairs.items) × (next ≡ shown self.new)) }
    {
        self.at += 1;
        if self.at < self.pairs.len() {
            Some(self.pairs[self.at])
        } else {
            self.at = 0;
            None
        }
    }
}

// The pairs of supports of these numbers of points, each at the first of them.
pub(crate) fn wheels_of(alloc: Global, counts: &[u32]) -> Result<Vec<Wheel>, AllocError>
    requires pairs { HavePairs counts.now }
    requires small { Each counts.now (λ count. count ≤ most_points) }
    ensures { IfOk result (λ wheels. Show counts.now wheels.items (firsts counts.now)) }
{
    let mut wheels = Vec::with_capacity(alloc, counts.len())?;
    for count in counts {
        wheels.push(Wheel::new(alloc, *count)?)?;
    }
    Ok(wheels)
}
