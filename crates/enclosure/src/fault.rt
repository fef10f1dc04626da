// What a try, a run, a narrowing or the asking for a row is turned down with.
ghost use Rattle.std.specs.Prelude.{◌≡◌};
ghost use Rattle.enclosure.specs.Faults.{number, layer, place};

use span::{Layer, Spot};

// An end of a row of a box.
#[derive(Clone, Copy, PartialEq, Eq, Debug)]
pub enum End {
    Low,
    High,
}

#[derive(Clone, Copy, PartialEq, Eq, Debug)]
pub enum Fault {
    // 31: what was prepared counts in another S than the named scale's
    OtherScale { units: u32 },
    // 6: not 2 × n numbers
    Count { given: usize },
    // 3: a row's low end is above its high end
    BoxReversed { row: usize },
    // 11: an end of the box is not within 100 wholes
    BoxTooLarge { row: usize },
    // 12: the box is not accepted; this is its worst end
    NotAccepted { row: usize, end: End },
    // 13: the trials asked are not 1 to 10
    Trials { asked: u8 },
    // 15: 16 narrowings are done
    Narrowed,
    // 1: the row is not below n
    NoRow { row: usize },
}

impl Fault {
    pub fn number(&self) -> u8
        ensures { result ≡ number self.now }
    {
        match self {
            Fault::OtherScale { .. } => 31,
            Fault::Count { .. } => 6,
            Fault::BoxReversed { .. } => 3,
            Fault::BoxTooLarge { .. } => 11,
            Fault::NotAccepted { .. } => 12,
            Fault::Trials { .. } => 13,
            Fault::Narrowed => 15,
            Fault::NoRow { .. } => 1,
        }
    }

    // The questions are the docket's.
    pub fn layer(&self) -> Layer
        ensures { result ≡ layer self.now }
    {
        Layer::Docket
    }

    // A worst end has part 0 for low and 1 for high.
    pub fn place(&self) -> Spot
        ensures { result ≡ place self.now }
    {
        match *self {
            Fault::BoxReversed { row }
            | Fault::BoxTooLarge { row }
            | Fault::NoRow { row }
            | Fault::NotAccepted { row, end: End::Low } => Spot::of_row(row),
            Fault::NotAccepted {
                row,
                end: End::High,
            } => Spot {
                part: 1,
                row,
                column: 0,
            },
            _ => Spot::default(),
        }
    }
}
