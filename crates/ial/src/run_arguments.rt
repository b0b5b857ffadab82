// The arguments of `run`.

use crate::arguments::Command;
use crate::failure::Failure;
use std::alloc::Global;
use std::num::NonZeroU64;
use std::str::FromStr;

const USAGE: &str = "`run` takes CODE, ROLL and options";

#[derive(Clone, Copy)]
pub enum KindName {
    Whole,
    Hundredths,
}

impl FromStr for KindName {
    type Err = Failure;

    fn from_str(word: &str) -> Result<KindName, Failure> {
        match word {
            "whole" => Ok(KindName::Whole),
            "hundredths" => Ok(KindName::Hundredths),
            _ => Err(Failure::Usage("--kind takes whole or hundredths")),
        }
    }
}

// `--set CELL=FIGURE`
#[derive(Clone, Copy)]
pub struct Setting<'a> {
    pub cell: usize,
    pub figure: &'a str,
}

impl<'a> TryFrom<&'a str> for Setting<'a> {
    type Error = Failure;

    fn try_from(word: &'a str) -> Result<Setting<'a>, Failure> {
        let (cell, figure) = word
            .split_once('=')
            .ok_or(Failure::Usage("--set takes CELL=FIGURE"))?;
        let cell = cell.parse()?;
        Ok(Setting { cell, figure })
    }
}

#[derive(Drop)]
pub struct RunOptions<'a> {
    pub kind: KindName,
    pub group: Option<usize>,
    // how many figures the book has room for
    pub book: usize,
    // steps asked for at a call
    pub steps: NonZeroU64,
    // steps after which the run is left
    pub limit: u64,
    pub json: bool,
    pub settings: Vec<Setting<'a>>,
}

impl<'a> RunOptions<'a> {
    // What holds where no option says otherwise.
    fn new(heap: Global) -> RunOptions<'a> {
        RunOptions {
            kind: KindName::Whole,
            group: None,
            book: 1_024,
            steps: NonZeroU64::new(1_000_000).unwrap(),
            limit: 4_000_000_000,
            json: false,
            settings: Vec::new(heap),
        }
    }

    // Takes an option of this name and value.
    fn take(&mut self, name: &str, value: &'a str) -> Result<(), Failure> {
        match name {
            "--kind" => self.kind = value.parse()?,
            "--group" => self.group = Some(value.parse()?),
            "--book" => self.book = value.parse()?,
            "--steps" => {
                self.steps = NonZeroU64::new(value.parse()?).ok_or(Failure::Usage(
                    "--steps takes a number from 1 on",
                ))?;
            }
            "--limit" => self.limit = value.parse()?,
            "--set" => self.settings.push(Setting::try_from(value)?)?,
            _ => return Err(Failure::Usage(USAGE)),
        }
        Ok(())
    }
}

// A word that is no option: the code's file first, then the roll's; an empty word names no file.
fn take_file<'a>(
    code: &mut Option<&'a str>,
    roll: &mut Option<&'a str>,
    file: &'a str,
) -> Result<(), Failure> {
    let place = if code.is_none() { code } else { roll };
    if place.is_some() {
        return Err(Failure::Usage(USAGE));
    }
    *place = Some(file).filter(|file| !file.is_empty());
    Ok(())
}

// The words after `run`: the code's file first, then the roll's, and options wherever they stand.
pub(crate) fn parse<'a>(heap: Global, mut words: &[&'a str]) -> Result<Command<'a>, Failure> {
    let mut options = RunOptions::new(heap);
    let mut code = None;
    let mut roll = None;
    'words: loop {
        words = match words {
            [] => break,
            ["--json", rest @ ..] => {
                options.json = true;
                rest
            }
            [
                name @ ("--kind" | "--group" | "--book" | "--steps" | "--limit" | "--set"),
                after @ ..,
            ] => {
                let [value, rest @ ..] = after else {
                    return Err(Failure::Usage("the last option lacks its value"));
                };
                options.take(name, value)?;
                rest
            }
            [file, rest @ ..] => {
                take_file(&mut code, &mut roll, file)?;
                rest
            }
        };
    }
    let (Some(code), Some(roll)) = (code, roll) else {
        return Err(Failure::Usage(USAGE));
    };
    Ok(Command::Run {
        code,
        roll,
        options,
    })
}
