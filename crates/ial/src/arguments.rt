// The command line: which command is asked for, and with what.

use crate::failure::Failure;
use crate::run_arguments;
use crate::run_arguments::RunOptions;
use std::alloc::Global;

#[derive(Drop)]
pub enum Command<'a> {
    Help,
    // `roll FILE [--group G]`
    Roll {
        file: &'a str,
        group: Option<usize>,
    },
    // `check FILE`
    Check {
        file: &'a str,
    },
    // `list FILE`
    List {
        file: &'a str,
    },
    // `run CODE ROLL ..`
    Run {
        code: &'a str,
        roll: &'a str,
        options: RunOptions<'a>,
    },
}

// The command that the words say, the first of which is the program's own name.
pub(crate) fn parse<'a>(heap: Global, words: &[&'a str]) -> Result<Command<'a>, Failure> {
    match words {
        [] | [_] | [_, "help" | "--help" | "-h", ..] => Ok(Command::Help),
        [_, "roll", file] => Ok(Command::Roll { file, group: None }),
        [_, "roll", "--group", size, file] | [_, "roll", file, "--group", size] => {
            let group = Some(size.parse()?);
            Ok(Command::Roll { file, group })
        }
        [_, "roll", ..] => Err(Failure::Usage("`roll` takes FILE and --group G")),
        [_, "check", file] => Ok(Command::Check { file }),
        [_, "check", ..] => Err(Failure::Usage("`check` takes a FILE of stored code")),
        [_, "list", file] => Ok(Command::List { file }),
        [_, "list", ..] => Err(Failure::Usage("`list` takes a FILE of stored code")),
        [_, "run", rest @ ..] => run_arguments::parse(heap, rest),
        _ => Err(Failure::Usage("there is no such command")),
    }
}
