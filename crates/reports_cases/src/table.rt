// The symbol table in columns, and the names of cells.

use crate::text::{lines, records, table};
use reports::cells::{CellLabel, cells_of, figures_of};
use std::test::Fail;

const TABLE: &str = "name              kind      type     first  count    low
rate              array     none         0      4     -2
done              variable  boolean      4      1      0
next              switch    none         -      0      -
more              label     none         -      0      -
x                 variable  integer      5      1      0
";

#[test]
fn columns(rt: HostRuntime) -> Result<(), Fail> {
    let shown = table(&records(), &lines()).columns(rt.alloc())?;
    assert_eq!(rt; shown.as_str(), TABLE);
    Ok(())
}

const CELLS: &str = "rate[-2] = 10, rate[-1] = 11, rate[0] = 12, rate[1] = 13, done = 14, x = 15, ";

#[test]
fn labels(rt: HostRuntime) -> Result<(), Fail> {
    let records = records();
    let lines = lines();
    let source = table(&records, &lines).source;
    let figures = [10, 11, 12, 13, 14, 15, 99];
    let mut shown = String::new(rt.alloc());
    for line in &lines {
        if let Some(cells) = cells_of(*line) {
            let subscripts = cells.low..i64::MAX;
            for (figure, subscript) in figures_of(cells, &figures).iter().zip(subscripts) {
                let label = CellLabel {
                    source,
                    line: *line,
                    subscript,
                };
                write!(shown, "{label} = {figure}, ")?;
            }
        }
    }
    assert_eq!(rt; shown.as_str(), CELLS);
    Ok(())
}
