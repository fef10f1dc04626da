// A rechecked sheet: its claims are the ranges that were held.
ghost use Rattle.std.specs.Prelude.{◌≤◌};

mod telling;

use span::Span;

// It is made by a recheck alone, and stays what it was when the docket moves on. Its ranges are as
// many as the largest game's, since a recheck uses no heap.
#[derive(Clone, Copy)]
pub struct Rechecked {
    pub(crate) states: u8,
    pub(crate) ranges: [Span; 12],
    ghost few: { states ≤ 12 },
}
