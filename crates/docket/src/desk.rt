// What a docket keeps besides its source.
ghost use Rattle.std.specs.Prelude.{◌≡◌};
ghost use Rattle.docket.specs.Reflects.{drafting};

use enclosure::Enclosure;
use prepare::Prepared;
use system::System;

// How far a game has come.
#[derive(Clone, Copy)]
pub enum Stage {
    // no proposal stands
    Drafting,
    // a proposal stands, and no ranges are held
    Prepared(Prepared),
    // ranges are held
    Holding(Enclosure),
}

// n, k and the settings' ranges, and the stage. The coefficients are the source's, so those of
// the figures stay 0.
#[derive(Clone, Copy)]
pub struct Desk {
    pub(crate) figures: System,
    pub(crate) stage: Stage,
}

impl Desk {
    // The desk of these figures, where no proposal stands.
    pub(crate) fn drafting(figures: System) -> Desk
        ensures { result ≡ drafting figures }
    {
        Desk {
            figures,
            stage: Stage::Drafting,
        }
    }
}
