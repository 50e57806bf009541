//! The hypergammon solver.
#![tactic(auto)]

use std::io::IsTerminal;
use std::process::ExitCode;
use top_call::start;

fn main(rt: HostRuntime) -> ExitCode {
    let errors = rt.stderr();
    let shows = errors.is_terminal();
    ExitCode::from(start(&rt, errors, shows))
}
