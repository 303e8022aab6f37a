// What `poly` replies on the bytes of its input.
ghost use Rattle.std.specs.Prelude.{◌≡◌, IfOk};
ghost use Rattle.poly_text.specs.Systems.{AreSupports};
ghost use Rattle.mixedcells.specs.Families.{lifted_text};
ghost use Rattle.mixedcells.specs.Answers.{IsSystemReply};

use crate::outcome::Outcome;
use crate::replies::{Reply, refusal};
use family_gen::lift;
use poly_text::{System, read_system};
use std::alloc::Global;
use support_text::{TextFault, write_problem};
use wide_int::OutOfMemory;

/// What `poly` replies, with the heights behind this seed.
pub fn poly(alloc: Global, seed: u64, bytes: &[u8]) -> Result<Reply, OutOfMemory>
    ensures { IfOk result (λ r. IsSystemReply seed bytes.now r.outcome r.text.items) }
{
    match read_system(alloc, bytes) {
        Ok(system) => lifted(alloc, system, seed),
        Err(TextFault::Format(fault)) => refusal(alloc, fault),
        Err(TextFault::OutOfMemory) => Err(OutOfMemory),
    }
}

// The reply on a system.
fn lifted(alloc: Global, system: System, seed: u64) -> Result<Reply, OutOfMemory>
    requires { AreSupports system }
    ensures { IfOk result (λ r. (r.outcome ≡ Outcome.Ok) × (r.text.items ≡ lifted_text seed system)) }
{
    let dim = system.dim();
    let file = lift(alloc, dim, system.into_supports(), seed)?;
    let mut text = Vec::new(alloc);
    write_problem(&file, &mut text)?;
    Ok(Reply {
        outcome: Outcome::Ok,
        text,
    })
}
