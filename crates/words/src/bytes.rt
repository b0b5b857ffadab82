// Runs of bytes of a class, and the value of digits.

ghost use Rattle.std.specs.Prelude.{◌≡◌, ℕ, ◌≤◌, Bool, length};
ghost use Rattle.std.specs.List.{prefix_len};
ghost use Rattle.std.specs.Char.{is_ascii_digit};
ghost use Rattle.words.specs.Spelling.{value_of, MadeOf};

// How many bytes at the front pass the test, before the first that does not or the end.
pub(crate) fn run<F: Fn(&u8) -> bool>(bytes: &[u8], passes: F) -> usize
    requires { F.IsAlwaysCallable passes }
    ensures is { (p : ℕ → Bool) → ((b : _) (r : Bool) → F.post passes b r → r ≡ p b.now) → result ≡ prefix_len p bytes.now }
    ensures within { result ≤ length bytes.now }
{
    bytes.iter().take_while(|b| passes(*b)).count()
}

// The number that the digits write.
pub(crate) fn value(digits: &[u8]) -> u32
    requires short { length digits.now ≤ 9 }
    requires digits { MadeOf is_ascii_digit digits.now }
    ensures { result ≡ value_of digits.now }
{
    let mut v = 0;
    for b in digits {
        v = v * 10 + u32::from(*b - b'0');
    }
    v
}
