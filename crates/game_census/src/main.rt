//! Counts and tells what no command of the program does: what is advised on the cube over a file of bounds, with the nearest calls, and how
//! tight a game is after some of its rounds.
#![tactic(auto)]

mod call;
mod cube;
mod gap;
mod kind_census;
mod report;
mod saving;
mod stop;
mod tally;
mod task;
mod widths;
mod words;

use crate::cube::count_calls;
use crate::stop::Stop;
use crate::task::Task;
use crate::widths::tell_widths;
use crate::words::read_task;
use std::alloc::Global;
use std::io::Print;
use std::process::ExitCode;
use std::rt::{Env, Files};
use std::thread::Threads;
use std::{env, io};
use system_files::RealFiles;

/// The words after the program's name.
fn words_of<R: Env + AllocGlobal>(rt: &R) -> io::Result<Vec<String>> {
    let mut words = Vec::new(rt.alloc());
    for word in env::args(rt)?.skip(1) {
        words.push(word)?;
    }
    Ok(words)
}

/// Reads the words after the program's name, and does what they ask for.
fn run<R: Threads + Sync + Env + Print + Files + AllocGlobal>(
    rt: &R,
    alloc: Global,
) -> Result<(), Stop> {
    let words = words_of(rt).map_err(|_| Stop::BadWords)?;
    match read_task(words.as_slice()) {
        None => Err(Stop::BadWords),
        Some(Task::Cube(task)) => count_calls(rt, alloc, &task),
        Some(Task::Widths(task)) => tell_widths(rt, alloc, &task, &mut RealFiles::new(rt, alloc)),
    }
}

fn main(rt: HostRuntime) -> ExitCode {
    match run(&rt, rt.alloc()) {
        Ok(()) => ExitCode::SUCCESS,
        Err(stop) => {
            let _ = eprintln!(&rt; "game_census: {}", stop.text());
            ExitCode::from(1)
        }
    }
}
