// Places: where a source keeps its coefficients.
ghost use Rattle.std.specs.Prelude.{◌≡◌, if◌then◌else◌, Some, None};
ghost use Rattle.source.specs.Faults.{spot_of};
ghost use Rattle.source.specs.Meaning.{in_range, index_of};

use span::Spot;

// A coefficient's place: parts go from 0 to 8, rows and columns from 0 to 11. Places of one kind are
// the same exactly when all numbers are equal.
#[derive(Clone, Copy, PartialEq, Eq, Debug)]
pub enum Place {
    Matrix {
        part: usize,
        row: usize,
        column: usize,
    },
    Payout {
        part: usize,
        row: usize,
    },
}

impl Place {
    // The place as a refusal names it; a payout has column 12.
    pub fn spot(self) -> Spot
        ensures { result ≡ spot_of self }
    {
        self.into()
    }

    pub(crate) fn in_range(self) -> bool
        ensures { result ≡ in_range self }
    {
        self.index().is_some()
    }

    // Its index among the places of its kind, in the order of their numbers, if it is in range.
    pub(crate) fn index(self) -> Option<usize>
        ensures { result ≡ (if in_range self then Some (index_of self) else None) }
    {
        match self {
            Place::Matrix { part, row, column } if part < 9 && row < 12 && column < 12 => {
                Some((part * 12 + row) * 12 + column)
            }
            Place::Payout { part, row } if part < 9 && row < 12 => Some(part * 12 + row),
            _ => None,
        }
    }
}

impl From<Place> for Spot {
    ghost from_gives = { λ p s. s ≡ spot_of p };

    fn from(place: Place) -> Spot {
        match place {
            Place::Matrix { part, row, column } => Spot { part, row, column },
            Place::Payout { part, row } => Spot {
                part,
                row,
                column: 12,
            },
        }
    }
}
