// Writing a run of bytes.

ghost use Rattle.std.specs.Prelude.{◌≡◌, ℕ, List, Some};
ghost use Rattle.std.specs.Fmt.{WritesOnOk};
ghost use Rattle.std.specs.List.{flat_map};

use std::fmt;

// Writes each byte as `show` has it.
pub(crate) fn write_each<W: fmt::Write, D: fmt::Display + Drop, F: Fn(u8) -> D>(
    f: &mut fmt::Formatter<W>,
    bytes: &[u8],
    show: F,
) -> fmt::Result
    requires { F.IsAlwaysCallable show }
    ensures { (shown : ℕ → List ℕ) → ((b : ℕ) (d : D) → F.post show b d → D.output d ≡ Some (shown b)) → WritesOnOk W.write_str_gives f.old result (flat_map shown bytes.now) f.new }
{
    for byte in bytes {
        let value = show(*byte);
        f.write(value)?;
    }
    Ok(())
}
