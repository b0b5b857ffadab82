// What `ial help` prints.

use crate::failure::Failure;

const TEXT: &str = "ial: fund rules in IAL, translated and run with proof

  ial roll FILE [--group G]   read a roll of members and print how many figures
                              it holds, their total and how it ends; with
                              --group, without the groups of G figures whose
                              first figure is 0 (those who have left)
  ial check FILE              check a file of stored code and print its sizes,
                              or the refusal with the operation's number
  ial list FILE               list a file of stored code, an operation a line,
                              and mark the operation that the check refuses
  ial run CODE ROLL [--kind whole|hundredths] [--group G] [--book N] [--steps K]
          [--limit N] [--set CELL=FIGURE].. [--json]
                              run stored code over a roll, K steps at a call,
                              until it ends or N steps are made; print the
                              posted figures, the count, the status and the
                              named cells
  ial help                    print this

A roll file holds one whole figure a line: an optional minus sign and 1 to 10
digits, within -2000000000 to 2000000000. For hundredths a line is an amount:
digits, and optionally a point and two digits. The first line that is none, or
has no line end, damages the roll from its first byte on.

Results go to standard output. What cannot be done is told in one line on
standard error, with status 1.";

pub(crate) fn print(rt: &HostRuntime) -> Result<(), Failure> {
    rt.println(TEXT)?;
    Ok(())
}
