// What a post or a range setting is turned down with.
ghost use Rattle.std.specs.Prelude.{◌≡◌};
ghost use Rattle.system.specs.Faults.{number, layer, place};

use span::{Layer, Spot};

#[derive(Clone, Copy, PartialEq, Eq, Debug)]
pub enum Fault {
    // 1: the part is above k, or the row or the column is not below n
    Outside(Spot),
    // 2: the new sum is not within one whole (matrix) or 100 wholes (payout)
    SumTooLarge(Spot),
    // 1: the part is not a setting's, 1 to k
    NoSetting(usize),
    // 3: the low end is above the high end
    RangeReversed(usize),
    // 4: an end is not within one whole
    RangeTooWide(usize),
    // 5: n is not 1 to 12, or k not 0 to 8
    Size { states: usize, settings: usize },
}

impl Fault {
    pub fn number(&self) -> u8
        ensures { result ≡ number self.now }
    {
        match self {
            Fault::Outside(_) => 1,
            Fault::SumTooLarge(_) => 2,
            Fault::NoSetting(_) => 1,
            Fault::RangeReversed(_) => 3,
            Fault::RangeTooWide(_) => 4,
            Fault::Size { .. } => 5,
        }
    }

    // The questions are the docket's.
    pub fn layer(&self) -> Layer
        ensures { result ≡ layer self.now }
    {
        Layer::Docket
    }

    pub fn place(&self) -> Spot
        ensures { result ≡ place self.now }
    {
        match *self {
            Fault::Outside(spot) | Fault::SumTooLarge(spot) => spot,
            Fault::NoSetting(part) | Fault::RangeReversed(part) | Fault::RangeTooWide(part) =>
                Spot {
                    part,
                    ..Spot::default()
                },
            Fault::Size { .. } => Spot::default(),
        }
    }
}
