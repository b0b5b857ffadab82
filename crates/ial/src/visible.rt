// A line of a file as a person can read it.

use std::fmt;

// At most so many bytes of a line are shown.
const WIDTH: usize = 72;

// Printable ASCII as it stands, any other byte by its number, and a long line cut off.
#[derive(Clone, Copy)]
pub(crate) struct Visible<'a>(pub &'a [u8]);

impl fmt::Display for Visible<'_> {
    fn fmt<W: fmt::Write>(&self, f: &mut fmt::Formatter<W>) -> fmt::Result {
        for byte in self.0.iter().take(WIDTH) {
            match byte {
                b' '..=b'~' => f.write_char(char::from(*byte))?,
                _ => write!(f, "\\x{byte:02x}")?,
            }
        }
        f.write_str(if self.0.len() > WIDTH { "..." } else { "" })
    }
}
