// The call that reads a text.

ghost use Rattle.std.specs.Prelude.{◌≡◌, ◌≤◌, List, length, take};
ghost use Rattle.grammar.specs.Tree.{Program};
ghost use Rattle.parser.specs.Records.{View, ProgramAt};
ghost use Rattle.parser.specs.Reading.{SentenceRead};
ghost use Rattle.symbols.specs.Occurrences.{occurrences, fors};
ghost use Rattle.symbols.specs.Symbols.{symbols};
ghost use Rattle.analysis.specs.Filling.{Filled};
ghost use Rattle.analysis.specs.LabelSets.{SmallTable};
ghost use Rattle.analysis.specs.NameLines.{HoldsPlaces};
ghost use Rattle.analysis.specs.Verdicts.{OffencesOf};
ghost use Rattle.parser.specs.declared.table.Record.{Record as WorkRecord};
ghost use Rattle.analysis.specs.declared.symbol.NameRecord.{NameRecord as Line};
ghost use Rattle.reading.specs.Reading.{Reads, Judged};

use crate::accepted::Accepted;
use crate::refusal::TextRefusal;
use analysis::bounds::bounds_offence;
use analysis::fill::fill_names;
use analysis::name_table::NameTable;
use analysis::offence::Offences;
use analysis::symbol::NameRecord;
use analysis::tables::Tables;
use analysis::verdict::first_broken;
use grammar::refusal::SentenceRefusal;
use parser::parse::{Sentence, parse};
use parser::refusal::{ParseRefusal, Refusal};
use parser::table::Record;

const FEWEST_NAMES: usize = 256;

// The earliest offence of the tree at the root against each rule on names.
fn offences_of(tables: &Tables, root: usize, filled: NameTable) -> Offences
    ensures { (v : View) (lines : List Line) (t : Program) → Filled v tables.now.records.now lines (symbols t) (occurrences t) (fors t) filled → tables.now.names.now ≡ take filled.lines lines → HoldsPlaces v tables.now.records.now → SmallTable (symbols t) → ProgramAt v t root → OffencesOf t result }
{
    Offences {
        second_definition: filled.second,
        misused_name: tables.misuse_offence(root),
        wrong_type: tables.type_offence(root),
        jump_into_for: tables.jump_offence(root),
        wrong_bounds: bounds_offence(tables.records, root),
        too_many_cells: filled.too_many,
    }
}

// Holds a sentence to the rules on names.
fn judge(
    text: &[u8],
    table: &mut [Record],
    names: &mut [NameRecord],
    sentence: Sentence,
) -> Result<Accepted, TextRefusal>
    ensures { (before : List WorkRecord) → 256 ≤ length names.old → SentenceRead text.now before sentence table.old → Judged text.now result table.new names.new }
{
    let filled = fill_names(text, table, sentence.words, sentence.root, names);
    let used = filled.lines.min(names.len());
    let tables = Tables {
        records: table,
        names: &names[0..used],
    };
    let offences = offences_of(&tables, sentence.root, filled);
    match first_broken(offences) {
        Some(broken) => Err(broken.into()),
        None => Ok(Accepted {
            root: sentence.root,
            words: sentence.words,
            lines: filled.lines,
            named: filled.named_cells,
            hidden: filled.cells.saturating_sub(filled.named_cells),
        }),
    }
}

// Reads a text: its tree and its symbol table stand in the two tables, or it is refused.
pub fn read(
    text: &[u8],
    table: &mut [Record],
    names: &mut [NameRecord],
) -> Result<Accepted, TextRefusal>
    ensures { Reads text.now (length table.old) (length names.old) result table.new names.new }
{
    if names.len() < FEWEST_NAMES {
        let refusal = ParseRefusal::from(Refusal {
            reason: SentenceRefusal::TableTooShort,
            place: 0,
        });
        return Err(refusal.into());
    }
    let sentence = parse(text, table)?;
    judge(text, table, names, sentence)
}
