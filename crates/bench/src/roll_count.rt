// The text roll.

ghost use Rattle.std.specs.Prelude.{◌≡◌, ◌-◌, ◌^◌, min, length};
ghost use Rattle.rolls.specs.Lines.{read_from};

use rolls::tally::add_up;
use rolls::text::TextRoll;

// How many figures the roll in these bytes holds; each is read and added.
#[unsafe(no_mangle)]
pub extern "C" fn pavennuri_roll_count(bytes: &[u8]) -> u64
    ensures { result ≡ min (length (read_from 0 bytes.now).figures) (2 ^ 64 - 1) }
{
    let mut roll = TextRoll::new(bytes);
    add_up(&mut roll).count
}
