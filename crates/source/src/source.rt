// What a source of coefficients does, whatever it keeps them in.
ghost use Rattle.std.specs.Prelude.{◌≡◌};
ghost use Rattle.source.specs.Meaning.{Meaning, Posting, asked, emptied};

use crate::fault::Fault;
use crate::place::Place;

// The largest size of a sum at a place.
pub(crate) const LARGEST: u32 = 1_073_741_824;

// A source keeps coefficients at places. Its meaning is the coefficient at every place, the places
// held, how many of each kind can be held, and the standing places, which it always holds.
pub trait Source {
    ghost meaning: { Self → Meaning };

    // the memory is kept as the source's own calls leave it; emptying makes it so
    ghost sound: { Self → Type 0 };

    // Every coefficient becomes 0, and only the standing places stay held.
    fn empty(&mut self)
        ensures { (meaning self.new ≡ emptied (meaning self.old)) × sound self.new };

    // Adds the amount at one place, which is then held.
    fn post(&mut self, place: Place, amount: i32) -> Result<(), Fault>
        ensures { sound self.old → Posting (meaning self.old) place amount result (meaning self.new) × sound self.new };

    // The coefficient at a held place; nothing at any other, which counts as 0.
    fn ask(&self, place: Place) -> Option<i32>
        ensures { result ≡ asked (meaning self.now) place };
}
