// What is told of a tree by the rules on names.

use symbols::refusal::NameRefusal;

// The earliest offence against each rule: 7, 8, 9, 10, 11 and 12.
#[derive(Clone, Copy, PartialEq, Eq, Debug)]
pub struct Offences {
    pub second_definition: Option<usize>,
    pub misused_name: Option<usize>,
    pub wrong_type: Option<usize>,
    pub jump_into_for: Option<usize>,
    pub wrong_bounds: Option<usize>,
    pub too_many_cells: Option<usize>,
}

// A rule that is broken, and the place.
#[derive(Clone, Copy, PartialEq, Eq, Debug)]
pub struct Broken {
    pub rule: NameRefusal,
    pub place: usize,
}
