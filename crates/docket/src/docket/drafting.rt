// Calls that leave a docket drafting: opening, posting, and setting a range.
ghost use Rattle.std.specs.Prelude.{◌≡◌, ◌*◌, ◌^◌, ◌<◌, true, OnOk};
ghost use Rattle.system.specs.Posts.{is_size};
ghost use Rattle.law.specs.Calls.Given.{opening, post, range};
ghost use Rattle.law.specs.Decides.{wholes};
ghost use Rattle.docket.specs.Dockets.{Answers};
ghost use Rattle.docket.specs.Reflects.{Unmoved};

use super::Docket;
use crate::desk::{Desk, Stage};
use crate::filling::{coefficient, has_place};
use law::{Answer, Fault};
use source::{Place, Source};
use span::{Scale, sum_within};
use system::System;

impl<C: Source, T: Scale> Docket<C, T> {
    // Sets the number of states and settings; nothing is posted then, and every setting is 0..0.
    pub fn open(&mut self, states: usize, settings: usize) -> Result<Answer, Fault>
        ensures sized { OnOk result (is_size states settings ≡ true) }
        ensures unmoved { Unmoved result self.old.desk self.new.desk }
        ensures replied { Answers C.Source T.Scale.unit (opening states settings) result self.old self.new }
    {
        let figures = System::new::<T>(states, settings)?;
        self.source.empty();
        self.desk = Desk::drafting(figures);
        Ok(Answer::Done)
    }

    // Adds an amount at a place.
    pub(crate) fn post(&mut self, place: Place, amount: i32) -> Result<Answer, Fault>
        ensures unmoved { Unmoved result self.old.desk self.new.desk }
        ensures replied { Answers C.Source T.Scale.unit (post place amount) result self.old self.new }
    {
        if !has_place(&self.desk.figures, place) {
            return Err(system::Fault::Outside(place.spot()).into());
        }
        let held = coefficient(&self.source, place);
        if sum_within(largest::<T>(place), held, amount).is_none() {
            return Err(system::Fault::SumTooLarge(place.spot()).into());
        }
        self.source.post(place, amount)?;
        self.desk.stage = Stage::Drafting;
        Ok(Answer::Done)
    }

    // Sets the range of one setting.
    pub(crate) fn set_range(&mut self, part: usize, low: i32, high: i32) -> Result<Answer, Fault>
        ensures unmoved { Unmoved result self.old.desk self.new.desk }
        ensures replied { Answers C.Source T.Scale.unit (range part low high) result self.old self.new }
    {
        let mut figures = self.desk.figures;
        figures.set_range(part, low, high)?;
        self.desk = Desk::drafting(figures);
        Ok(Answer::Done)
    }
}

// The largest size of a sum at a place: one whole (matrix) or 100 wholes (payout).
fn largest<T: Scale>(place: Place) -> u32
    ensures value { result ≡ wholes place * T.Scale.unit }
    ensures small { result < 2 ^ 31 }
{
    let wholes = match place {
        Place::Matrix { .. } => 1,
        Place::Payout { .. } => 100,
    };
    wholes * T::units() as u32
}
