// What `trace` and `verify` reply on the bytes of their input.
ghost use Rattle.std.specs.Prelude.{◌≡◌, ◌<◌, IfOk, MatchResult};
ghost use Rattle.cayley.specs.Paths.{path};
ghost use Rattle.start_system.specs.Started.{IsStarted};
ghost use Rattle.search_team.specs.PathSearches.{IsHalted};
ghost use Rattle.path_tracer.specs.Traced.{IsTraced};
ghost use Rattle.log_check.specs.Verdicts.{HasShapes};
ghost use Rattle.mixedcells.specs.Answers.{IsFileReply, IsLogReply};
ghost use Rattle.mixedcells.specs.Journeys.{HasHalted};
ghost use Rattle.mixedcells.specs.Logs.{IsTracedText, IsJudgedLog};
ghost use Rattle.mixedcells.specs.Walks.{IsWalkReply};

use crate::along::halted;
use crate::outcome::Outcome;
use crate::replies::{Reply, answered, refusal};
use cayley::{LiftFile, Problem};
use cone_walls::Steps;
use path_log::{PathLog, read_log, write_log};
use path_trace::Trace;
use path_tracer::trace_alone;
use searcher::HaltCause;
use start_system::with_corners;
use std::alloc::Global;
use std::marker::Brand;
use std::sync::ledger::{Blank, Ledger};
use support_text::{TextFault, read_problem};
use wide_int::OutOfMemory;

// Writes down the path tree of a path, by a counter of its own.
fn trace_by<L: Ledger>(alloc: Global, problem: &Problem, blank: Blank) -> Result<Trace, HaltCause>
    requires ledger { (blank.name ≡ L.name) × (blank.parts ≡ L.parts) × (0 < blank.parts) }
    requires started { IsStarted problem.now }
    ensures { MatchResult result (IsTraced problem.now) (IsHalted problem.now) }
{
    let mut steps = Steps::<L>::new(blank);
    trace_alone(alloc, problem, &mut steps)
}

// Writes down the path tree of a file.
fn trace_path(alloc: Global, file: &LiftFile) -> Result<Trace, HaltCause>
    ensures { MatchResult result (IsTraced (path file.now)) (HasHalted file.now) }
{
    // A lift file is valid by its type, as its readers tell.
    let _dim = file.dim();
    let Ok(problem) = with_corners(alloc, file) else {
        return Err(HaltCause::OutOfMemory);
    };
    trace_by::<Brand>(alloc, &problem, Blank::new(1))
}

// What `trace` replies on a file.
fn traced(alloc: Global, file: &LiftFile) -> Result<Reply, OutOfMemory>
    ensures { IfOk result (λ r. IsWalkReply IsTracedText file.now r.outcome r.text.items) }
{
    match trace_path(alloc, file) {
        Ok(trace) => {
            let text = write_log(alloc, file, &trace)?;
            Ok(Reply {
                outcome: Outcome::Ok,
                text,
            })
        }
        Err(cause) => halted(alloc, cause),
    }
}

/// What `trace` replies.
pub fn trace(alloc: Global, bytes: &[u8]) -> Result<Reply, OutOfMemory>
    ensures { IfOk result (λ r. IsFileReply (IsWalkReply IsTracedText) bytes.now r.outcome r.text.items) }
{
    match read_problem(alloc, bytes) {
        Ok(file) => traced(alloc, &file),
        Err(TextFault::Format(fault)) => refusal(alloc, fault),
        Err(TextFault::OutOfMemory) => Err(OutOfMemory),
    }
}

// What `verify` replies on a log.
fn judged(alloc: Global, log: &PathLog) -> Result<Reply, OutOfMemory>
    requires { HasShapes log.now }
    ensures { IfOk result (λ r. IsJudgedLog log.now r.outcome r.text.items) }
{
    answered(alloc, log_check::verify(alloc, log))
}

/// What `verify` replies.
pub fn verify(alloc: Global, bytes: &[u8]) -> Result<Reply, OutOfMemory>
    ensures { IfOk result (λ r. IsLogReply bytes.now r.outcome r.text.items) }
{
    match read_log(alloc, bytes) {
        Ok(log) => judged(alloc, &log),
        Err(TextFault::Format(fault)) => refusal(alloc, fault),
        Err(TextFault::OutOfMemory) => Err(OutOfMemory),
    }
}
