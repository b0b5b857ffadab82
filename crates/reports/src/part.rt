// A part of a slice.

ghost use Rattle.std.specs.Prelude.{◌≡◌, drop, take};

// As many elements from a place on, or as many as there are.
pub(crate) fn part<T>(all: &[T], from: usize, count: usize) -> &[T]
    ensures { result.now ≡ take count (drop from all.now) }
{
    let start = from.min(all.len());
    let rest = all.len() - start;
    &all[start..start + count.min(rest)]
}
