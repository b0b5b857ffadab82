// Settings: a figure for a named cell, as a person writes it, `x=3` or `a[-2]=7`.

ghost use Rattle.std.specs.Prelude.{◌≡◌, Ok, Err, Some, IfOk, MatchResult};
ghost use Rattle.std.specs.Str.{bytes_eq};
ghost use Rattle.reports.specs.SettingWords.{setting_figure, subscript_of};
ghost use Rattle.reports.specs.Settings.{line_setting, setting_error};
ghost use Rattle.reports.specs.Sources.{line_named_in, name_letters_in, name_setting_in, setting_cell_in, word_setting_in};

use crate::source::Source;
use crate::symbol_table::SymbolTable;
use crate::worded::Worded;
use analysis::bounds::value;
use analysis::symbol::{NameKind, NameRecord};
use std::error::Error;
use std::fmt;

// What is wrong with a setting.
#[derive(Clone, Copy, PartialEq, Eq, Debug)]
pub enum SettingError {
    // It has no `=`.
    NoFigure,
    // The text has no such name.
    NoSuchName,
    // The name is a label or a switch.
    NoCells,
    // An array without a subscript.
    NoSubscript,
    // A simple variable with a subscript.
    NoArray,
    // The subscript is no whole number, or its bracket is not closed.
    BadSubscript,
    // The subscript lies outside the bounds.
    Outside,
}

impl Worded for SettingError {
    ghost wording = { setting_error };

    fn wording(self) -> &'static str {
        match self {
            SettingError::NoFigure => "a setting is NAME=FIGURE or NAME[SUBSCRIPT]=FIGURE",
            SettingError::NoSuchName => "the text has no such name",
            SettingError::NoCells => "a label or a switch has no cell",
            SettingError::NoSubscript => "an array wants a subscript",
            SettingError::NoArray => "a variable has no subscript",
            SettingError::BadSubscript => "a subscript is a whole number",
            SettingError::Outside => "the subscript lies outside the bounds",
        }
    }
}

impl fmt::Display for SettingError {
    ghost output = { λ e. Some (setting_error e) };

    fn fmt<W: fmt::Write>(&self, f: &mut fmt::Formatter<W>) -> fmt::Result {
        f.write_str(self.wording())
    }
}

impl Error for SettingError {}

// The cell that a line of the symbol table has for a subscript, or without one.
pub fn cell_of_line(line: NameRecord, subscript: Option<i64>) -> Result<usize, SettingError>
    ensures { result ≡ line_setting line subscript }
{
    match (line.kind, subscript) {
        (NameKind::Label | NameKind::Switch(_), _) => Err(SettingError::NoCells),
        (NameKind::Array(_, _), None) => Err(SettingError::NoSubscript),
        (NameKind::Array(low, high), Some(k)) => {
            let least = value(low);
            if least <= k && k <= value(high) {
                Ok(line.first.saturating_add((k - least) as usize))
            } else {
                Err(SettingError::Outside)
            }
        }
        (NameKind::Variable, None) => Ok(line.first),
        (NameKind::Variable, Some(_)) => Err(SettingError::NoArray),
    }
}

// Does the name of the word w have these letters?
fn has_letters(source: Source<'_>, w: usize, name: &[u8]) -> bool
    ensures { result ≡ bytes_eq (name_letters_in source.entry w) name.now }
{
    source.name(w).letters == name
}

// A subscript with the bracket that closes it.
fn subscript_in(word: &str) -> Option<i64>
    ensures { result ≡ subscript_of word.now }
{
    word.strip_suffix(']')?.parse::<i64>().ok()
}

impl SymbolTable<'_> {
    // The first line of the name with these letters.
    fn line_of(self, name: &[u8]) -> Option<NameRecord>
        ensures { result ≡ line_named_in self.entry name.now }
    {
        let source = self.source;
        self.lines
            .iter()
            .copied()
            .find(|line| has_letters(source, line.word, name))
    }

    // The cell of the name with these letters.
    pub fn cell_of_name(self, name: &[u8], subscript: Option<i64>) -> Result<usize, SettingError>
        ensures { result ≡ name_setting_in self.entry name.now subscript }
    {
        let line = self.line_of(name).ok_or(SettingError::NoSuchName)?;
        cell_of_line(line, subscript)
    }

    // The cell that `NAME` or `NAME[SUBSCRIPT]` names.
    pub fn cell_of_word(self, word: &str) -> Result<usize, SettingError>
        ensures { result ≡ word_setting_in self.entry word.now }
    {
        match word.split_once('[') {
            None => self.cell_of_name(word.as_bytes(), None),
            Some((name, rest)) => {
                let subscript = subscript_in(rest).ok_or(SettingError::BadSubscript)?;
                self.cell_of_name(name.as_bytes(), Some(subscript))
            }
        }
    }

    // The cell and the figure's words of a setting.
    pub fn read_setting(self, word: &str) -> Result<(usize, &str), SettingError>
        ensures cell { MatchResult result (λ x. setting_cell_in self.entry word.now ≡ Ok x.0) (λ e. setting_cell_in self.entry word.now ≡ Err e) }
        ensures figure { IfOk result (λ x. x.1.now ≡ setting_figure word.now) }
    {
        let (target, figure) = word.split_once('=').ok_or(SettingError::NoFigure)?;
        let cell = self.cell_of_word(target)?;
        Ok((cell, figure))
    }
}
