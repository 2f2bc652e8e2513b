//! The command line of the rule and step file library: `wafulexi help` says what it does.
#![tactic(auto)]

mod commands;
mod escapes;
mod excerpts;
mod failures;
mod input;
mod options;
mod rules;
mod samples;
mod usage;
mod words;

use failures::Failure;
use std::env;
use std::env::Args;
use std::process::ExitCode;

fn main(rt: HostRuntime) -> ExitCode {
    match run(&rt) {
        Ok(()) => ExitCode::SUCCESS,
        Err(failure) => {
            // where standard error cannot be written either, nobody is left to tell
            let _ = rt.eprintln(failure);
            ExitCode::FAILURE
        }
    }
}

fn run(rt: &HostRuntime) -> Result<(), Failure> {
    commands::run(rt, words::parse(own_words(rt)?)?)
}

/// The words of the command line, without the first, which is the program's own name.
fn own_words(rt: &HostRuntime) -> Result<Args, Failure> {
    let mut words = env::args(rt).map_err(Failure::Words)?;
    let _ = words.next();
    Ok(words)
}
