// The figures of a game with the coefficients that its source holds.
ghost use Rattle.std.specs.Prelude.{◌≡◌, length};
ghost use Rattle.source.specs.Meaning.{matrix, payout, place_at, told};
ghost use Rattle.law.specs.Decides.{has_place};
ghost use Rattle.docket.specs.Filling.{FilledFrom, Reads, read_at};

use source::{Place, Source};
use system::System;

// The figures with the source's coefficients at the places of the game, and 0 elsewhere. The arrays
// are of the largest game's size, as a docket uses no heap.
pub(crate) fn filled<C: Source>(figures: &System, source: &C) -> Result<System, system::Fault>
    ensures { FilledFrom figures.now (C.Source.meaning source.now) result }
{
    let mut matrix = [0; 1296];
    read(figures, source, matrix_place, &mut matrix);
    let mut payouts = [0; 108];
    read(figures, source, payout_place, &mut payouts);
    figures.filled(&matrix, &payouts)
}

// Each number from the place at its index. An array made by a call at each index would need no loop,
// but what is known of it names all 1296 calls, which is too long to prove from.
fn read<C: Source, F: Fn(usize) -> Place>(
    figures: &System,
    source: &C,
    place_at: F,
    numbers: &mut [i32],
)
    requires { F.IsAlwaysCallable place_at }
    ensures long { length numbers.new ≡ length numbers.old }
    ensures reads { Reads figures.now (C.Source.meaning source.now) (F.post place_at) (length numbers.old) numbers.new }
{
    for (at, number) in numbers.iter_mut().enumerate() {
        *number = number_at(figures, source, place_at(at));
    }
}

fn number_at<C: Source>(figures: &System, source: &C, place: Place) -> i32
    ensures { result ≡ read_at figures.now (C.Source.meaning source.now) place }
{
    if has_place(figures, place) {
        coefficient(source, place)
    } else {
        0
    }
}

// The place whose number stands at an index of the matrix. A system turns the same index into a spot;
// it stands beside sources and knows no places.
fn matrix_place(at: usize) -> Place
    ensures { result ≡ place_at matrix at }
{
    Place::Matrix {
        part: at / 144,
        row: at / 12 % 12,
        column: at % 12,
    }
}

// The place whose number stands at an index of the payouts.
fn payout_place(at: usize) -> Place
    ensures { result ≡ place_at payout at }
{
    Place::Payout {
        part: at / 12,
        row: at % 12,
    }
}

// Is the place one of the game's?
pub(crate) fn has_place(figures: &System, place: Place) -> bool
    ensures { result ≡ has_place figures.now.states figures.now.settings place }
{
    let n = figures.states();
    let k = figures.settings();
    match place {
        Place::Matrix { part, row, column } => part <= k && row < n && column < n,
        Place::Payout { part, row } => part <= k && row < n,
    }
}

// What the source holds at a place; nothing counts as 0.
pub(crate) fn coefficient<C: Source>(source: &C, place: Place) -> i32
    ensures { result ≡ told (C.Source.meaning source.now) place }
{
    source.ask(place).unwrap_or(0)
}
