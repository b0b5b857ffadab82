// The operand stack and the cells: arrays of figures.

ghost use Rattle.std.specs.Prelude.{◌≡◌, ◌+◌, ◌-◌, ◌<◌, ◌≤◌, ◌∷◌, drop, map, length, set, Some, slice_set};
ghost use Rattle.std.specs.List.{slice_get};
ghost use Rattle.machine.specs.Machine.{gives, stored};

use figures::kind::Figures;

// The operand stack: the first `depth` figures of an array that the caller lends, the top last.
// That the array keeps its length is said by each method: it is of two moments, which no ghost field sees.
#[derive(Drop)]
pub struct OperandStack<'m, F> {
    pub(crate) figures: &'m mut [F],
    pub(crate) depth: usize,
    ghost tall: { depth ≤ length figures.now },
}

impl<F: Figures> OperandStack<'_, F> {
    ghost use Rattle.machine.specs.Views.{laid};

    // Lays a figure on the stack.
    pub(crate) fn push(&mut self, figure: F)
        requires { self.old.depth < length self.old.figures.now }
        ensures laid { laid F.means self.new ≡ F.means figure ∷ laid F.means self.old }
        ensures depth { self.new.depth ≡ self.old.depth + 1 }
        ensures size { length self.new.figures.now ≡ length self.old.figures.now }
    {
        self.figures[self.depth] = figure;
        self.depth += 1;
    }

    // Takes the figure on top.
    pub(crate) fn pop(&mut self) -> F
        requires { 0 < self.old.depth }
        ensures laid { laid F.means self.old ≡ F.means result ∷ laid F.means self.new }
        ensures depth { self.new.depth ≡ self.old.depth - 1 }
        ensures size { length self.new.figures.now ≡ length self.old.figures.now }
    {
        self.depth -= 1;
        self.figures[self.depth]
    }

    // The figure on top, which stays there.
    pub(crate) fn top(&self) -> F
        requires { 0 < self.now.depth }
        ensures { laid F.means self.now ≡ F.means result ∷ drop 1 (laid F.means self.now) }
    {
        self.figures[self.depth - 1]
    }
}

// What a cell holds.
pub(crate) fn load<F: Figures>(cells: &[F], cell: usize) -> F
    requires { cell < length cells.now }
    ensures { slice_get (map F.means cells.now) cell ≡ Some (F.means result) }
{
    cells[cell]
}

// Puts a figure into a place of an array.
pub(crate) fn put<F: Figures>(figures: &mut [F], place: usize, figure: F)
    requires { place < length figures.old }
    ensures set { map F.means figures.new ≡ slice_set (map F.means figures.old) place (F.means figure) }
    ensures stored { stored (map F.means figures.old) place (F.means figure) ≡ gives (map F.means figures.new) }
{
    figures[place] = figure;
}
