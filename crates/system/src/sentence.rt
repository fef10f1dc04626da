// Why a call was turned down, in one sentence.
ghost use Rattle.std.specs.Prelude.{Some};
ghost use Rattle.system.specs.Sentences.{sentence};

use crate::fault::Fault;
use std::error::Error;
use std::fmt;

impl fmt::Display for Fault {
    ghost output = { λ fault. Some (sentence fault) };

    fn fmt<W: fmt::Write>(&self, f: &mut fmt::Formatter<W>) -> fmt::Result {
        match self {
            Fault::Outside(spot) => write!(f, "the game has no place {spot}"),
            Fault::SumTooLarge(spot) => write!(
                f,
                "the coefficient at {spot} would pass one whole, or 100 wholes for a payout"
            ),
            Fault::NoSetting(part) => write!(f, "the game has no setting {part}"),
            Fault::RangeReversed(part) => write!(
                f,
                "the range of setting {part} has its low end above its high end"
            ),
            Fault::RangeTooWide(part) => write!(
                f,
                "the range of setting {part} has an end that is not within one whole"
            ),
            Fault::Size { states, settings } => write!(
                f,
                "a game has 1 to 12 states and 0 to 8 settings, not {states} and {settings}"
            ),
        }
    }
}

impl Error for Fault {}
