// Entries: a sum at a place of either kind.
ghost use Rattle.std.specs.Prelude.{◌≡◌, true};
ghost use Rattle.std.proofs.Common.{rules};
ghost use Rattle.source.specs.Lists.{refused_at};

use crate::fault::Fault;
use crate::place::Place;

// Where a coefficient of the matrix is: parts go from 0 to 8, rows and columns from 0 to 11.
#[derive(Clone, Copy, PartialEq, Eq, Debug)]
pub struct MatrixPlace {
    pub part: usize,
    pub row: usize,
    pub column: usize,
}

// Where a payout is: parts go from 0 to 8, rows from 0 to 11.
#[derive(Clone, Copy, PartialEq, Eq, Debug)]
pub struct PayoutPlace {
    pub part: usize,
    pub row: usize,
}

// The sum of what was posted at a place.
#[derive(Clone, Copy, PartialEq, Eq, Debug)]
pub struct Entry<P> {
    pub place: P,
    pub sum: i32,
}

// Why nothing was added.
#[derive(Clone, Copy, PartialEq, Eq, Debug)]
pub enum Refusal {
    // the place has no entry, and none is free
    NoRoom,
    // the new sum is not within 1,073,741,824 in size
    TooLarge,
}

impl Refusal {
    // As the source tells it of a place.
    pub(crate) fn at(self, place: Place) -> Fault
        ensures { result ≡ refused_at place self }
    {
        match self {
            Refusal::NoRoom => Fault::Full(place),
            Refusal::TooLarge => Fault::SumTooLarge(place),
        }
    }
}

// Places that are equal only where they are one and the same.
pub trait Exact: Eq + Copy {
    ghost identical: { (a b : Self) → Self.eq a b ≡ true → a ≡ b };
}

impl Exact for MatrixPlace {
    ghost identical = { Prim.search rules };
}

impl Exact for PayoutPlace {
    ghost identical = { Prim.search rules };
}
