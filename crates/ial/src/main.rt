#![tactic(auto)]

// The program `ial`: arguments in, reports out; the work is done by the libraries.

mod arguments;
mod check;
mod failure;
mod files;
mod help;
mod json;
mod list;
mod loaded;
mod outcome;
mod roll;
mod run;
mod run_arguments;
mod visible;

use arguments::Command;
use failure::Failure;
use std::process::ExitCode;
use std::{env, io};

fn execute(rt: &HostRuntime) -> Result<(), Failure> {
    let words: Vec<String> = env::args(rt)?.collect(rt.alloc())?;
    let words: Vec<&str> = words.iter().map(|word| word.as_str()).collect(rt.alloc())?;
    match arguments::parse(rt.alloc(), words.as_slice())? {
        Command::Help => help::print(rt),
        Command::Roll { file, group } => roll::report(rt, file, group),
        Command::Check { file } => check::report(rt, file),
        Command::List { file } => list::report(rt, file),
        Command::Run {
            code,
            roll,
            options,
        } => run::report(rt, code, roll, &options),
    }
}

// A refusal of code is a result and goes to standard output, any other failure to standard error.
fn tell(rt: &HostRuntime, failure: &Failure) -> io::Result<()> {
    match failure {
        Failure::Code(_) => println!(rt; "{failure}"),
        _ => eprintln!(rt; "ial: {failure}"),
    }
}

fn main(rt: HostRuntime) -> ExitCode {
    let Err(failure) = execute(&rt) else {
        return ExitCode::SUCCESS;
    };
    // a result that cannot be written is a failure of its own; a failure that cannot be told stays untold
    if tell(&rt, &failure).is_err() && matches!(failure, Failure::Code(_)) {
        let _ = tell(&rt, &Failure::Output);
    }
    ExitCode::FAILURE
}
