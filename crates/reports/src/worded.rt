// Values that are told in words of their own.

ghost use Rattle.std.specs.Prelude.{◌≡◌, ℕ, List};

// Each value has one wording.
pub trait Worded {
    ghost wording: { Self → List ℕ };

    fn wording(self) -> &'static str
        ensures { result.now ≡ wording self };
}
