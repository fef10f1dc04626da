// A proposal for a system: an approximate inverse R by rows of n, and n guessed worths, from
// anywhere.
ghost use Rattle.std.specs.Prelude.{◌≡◌, ◌*◌};
ghost use Rattle.system.specs.Figures.{Small};

mod limits;
mod reading;

use span::Scale;
use std::marker::PhantomData;
use system::System;

// R within 50 wholes and the guesses within 100, at the system's scale; 0 past the numbers given, in
// arrays of the largest game's size, since a proposal uses no heap.
#[derive(Drop)]
pub struct Proposal<'a, T: Scale> {
    pub system: &'a System,
    pub table: [i32; 144],
    pub guesses: [i32; 12],
    scale: PhantomData<T>,
    ghost scaled: { T.Scale.unit ≡ system.now.units },
    ghost tabled: { Small (50 * T.Scale.unit) table },
    ghost guessed: { Small (100 * T.Scale.unit) guesses },
}
