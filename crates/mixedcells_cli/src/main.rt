//! `mixedcells`: the mixed cells of lifted supports, listed exactly.
#![tactic(auto)]

use edge_io::{NoGate, StdSink, StdSource};
use mixedcells::run;
use std::env;
use std::io::ErrorKind;
use std::process::ExitCode;

// The words after the program's name; none if one of them isn't UTF-8, since no command has such a
// word. `None` where there is no memory for them.
fn words_of(rt: &HostRuntime) -> Option<Vec<String>> {
    match env::args(rt) {
        Ok(args) => args.skip(1).collect(rt.alloc()).ok(),
        Err(fault) if fault.kind() == ErrorKind::InvalidData => Some(Vec::new(rt.alloc())),
        Err(_) => None,
    }
}

fn main(rt: HostRuntime) -> ExitCode {
    let Some(words) = words_of(&rt) else {
        return ExitCode::from(8);
    };
    let mut source = StdSource::new(rt.stdin());
    let mut sink = StdSink::new(rt.stdout());
    let outcome = run(&rt, rt.alloc(), &words, &mut source, &mut sink, &NoGate);
    ExitCode::from(outcome.status())
}
