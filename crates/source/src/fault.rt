// What a post into a source is turned down with.
ghost use Rattle.std.specs.Prelude.{◌≡◌};
ghost use Rattle.source.specs.Faults.{number, layer, place};

use crate::place::Place;
use span::{Layer, Spot};

#[derive(Clone, Copy, PartialEq, Eq, Debug)]
pub enum Fault {
    // 20: a number of the place is out of range
    OutOfRange(Place),
    // 21: the place is not held, and as many are held as the source has room for
    Full(Place),
    // 22: the new sum is not within 1,073,741,824 in size
    SumTooLarge(Place),
}

impl Fault {
    pub fn number(&self) -> u8
        ensures { result ≡ number self.now }
    {
        match self {
            Fault::OutOfRange(_) => 20,
            Fault::Full(_) => 21,
            Fault::SumTooLarge(_) => 22,
        }
    }

    pub fn layer(&self) -> Layer
        ensures { result ≡ layer self.now }
    {
        Layer::Source
    }

    // A payout has column 12.
    pub fn place(&self) -> Spot
        ensures { result ≡ place self.now }
    {
        match *self {
            Fault::OutOfRange(place) | Fault::Full(place) | Fault::SumTooLarge(place) =>
                place.spot(),
        }
    }
}
