// What a call of a docket is turned down with.
ghost use Rattle.std.specs.Prelude.{◌≡◌};
ghost use Rattle.law.specs.Faults.{number, layer, place};
ghost use Rattle.law.specs.declared.fault.Fault.TheVariants.{Figures, Proposal, Trial, Source};

use span::{Layer, Spot};

// Whose question got a no, with that fault as it came.
#[derive(Clone, Copy, PartialEq, Eq, Debug)]
pub enum Fault {
    // 1 to 5: the figures of the game
    Figures(system::Fault),
    // 6 to 9: the proposal
    Proposal(prepare::Fault),
    // 1, 3, 6, 11 to 13, 15: a trial box, a run, a narrowing or a row
    Trial(enclosure::Fault),
    // 20 to 22: the source did not take a post
    Source(source::Fault),
    // 10: no proposal stands
    NoProposal,
    // 14: no ranges are held
    NotHeld,
}

impl Fault {
    pub fn number(&self) -> u8
        ensures { result ≡ number self.now }
    {
        match self {
            Fault::Figures(fault) => fault.number(),
            Fault::Proposal(fault) => fault.number(),
            Fault::Trial(fault) => fault.number(),
            Fault::Source(fault) => fault.number(),
            Fault::NoProposal => 10,
            Fault::NotHeld => 14,
        }
    }

    // A source's refusal keeps its layer.
    pub fn layer(&self) -> Layer
        ensures { result ≡ layer self.now }
    {
        match self {
            Fault::Source(fault) => fault.layer(),
            _ => Layer::Docket,
        }
    }

    pub fn place(&self) -> Spot
        ensures { result ≡ place self.now }
    {
        match self {
            Fault::Figures(fault) => fault.place(),
            Fault::Proposal(fault) => fault.place(),
            Fault::Trial(fault) => fault.place(),
            Fault::Source(fault) => fault.place(),
            _ => Spot::default(),
        }
    }
}

impl From<system::Fault> for Fault {
    ghost from_gives = { λ f e. e ≡ Figures f };

    fn from(fault: system::Fault) -> Fault {
        Fault::Figures(fault)
    }
}

impl From<prepare::Fault> for Fault {
    ghost from_gives = { λ f e. e ≡ Proposal f };

    fn from(fault: prepare::Fault) -> Fault {
        Fault::Proposal(fault)
    }
}

impl From<enclosure::Fault> for Fault {
    ghost from_gives = { λ f e. e ≡ Trial f };

    fn from(fault: enclosure::Fault) -> Fault {
        Fault::Trial(fault)
    }
}

impl From<source::Fault> for Fault {
    ghost from_gives = { λ f e. e ≡ Source f };

    fn from(fault: source::Fault) -> Fault {
        Fault::Source(fault)
    }
}
