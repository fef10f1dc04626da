// The docket's public calls.
ghost use Rattle.std.specs.Prelude.{List, []};
ghost use Rattle.source.specs.Meaning.{Meaning};
ghost use Rattle.system.specs.Posts.{Fresh};
ghost use Rattle.law.specs.Calls.{Given, given};
ghost use Rattle.law.specs.Law.{AtOnce};
ghost use Rattle.docket.specs.Dockets.{After, Answers};
ghost use Rattle.docket.specs.Reflects.{Told, Unmoved};

use super::Docket;
use crate::desk::{Desk, Stage};
use law::{Answer, Call, Fault};
use source::Source;
use span::{Scale, Span};
use std::marker::PhantomData;
use system::System;

impl<C: Source, T: Scale> Docket<C, T> {
    // A new docket empties its source, has one state and no setting, and drafts.
    pub fn new(mut source: C) -> Docket<C, T>
        ensures { After C.Source T.Scale.unit (C.Source.meaning source) [] result }
    {
        source.empty();
        Docket {
            source,
            desk: Desk::drafting(smallest::<T>()),
            scale: PhantomData,
        }
    }

    // What a call does depends on the stage and the call together. Each pair that is turned down has
    // an arm of its own, since in an arm for two of them the proof does not know which it was.
    pub fn call(&mut self, call: Call<'_>) -> Result<Answer, Fault>
        ensures unmoved { Unmoved result self.old.desk self.new.desk }
        ensures replied { Answers C.Source T.Scale.unit (given call.entry) result self.old self.new }
        ensures at_once { (M : Meaning) (h : List Given) → After C.Source T.Scale.unit M h self.old → AtOnce T.Scale.unit h (given call.entry) result }
    {
        match (&self.desk.stage, call) {
            (_, Call::Open { states, settings }) => self.open(states, settings),
            (_, Call::Post { place, amount }) => self.post(place, amount),
            (_, Call::Range { part, low, high }) => self.set_range(part, low, high),
            (_, Call::Propose { table, guesses }) => self.propose(table, guesses),
            (Stage::Drafting, Call::Try { .. }) => Err(Fault::NoProposal),
            (&Stage::Prepared(prepared), Call::Try { numbers }) => self.attempt(&prepared, numbers),
            (&Stage::Holding(held), Call::Try { numbers }) => {
                self.attempt(held.prepared(), numbers)
            }
            (Stage::Drafting, Call::Run { .. }) => Err(Fault::NoProposal),
            (&Stage::Prepared(prepared), Call::Run { trials }) => self.run(&prepared, trials),
            (&Stage::Holding(held), Call::Run { trials }) => self.run(held.prepared(), trials),
            (Stage::Drafting, Call::Narrow) => Err(Fault::NotHeld),
            (Stage::Prepared(_), Call::Narrow) => Err(Fault::NotHeld),
            (&Stage::Holding(held), Call::Narrow) => self.narrow(held),
        }
    }

    // The held range of a row.
    pub fn row(&self, row: usize) -> Result<Span, Fault>
        ensures { (M : Meaning) (h : List Given) → After C.Source T.Scale.unit M h self.now → Told T.Scale.unit h row result }
    {
        match &self.desk.stage {
            Stage::Drafting | Stage::Prepared(_) => Err(Fault::NotHeld),
            Stage::Holding(held) => Ok(held.row(row)?),
        }
    }
}

// The figures of one state and no setting.
fn smallest<T: Scale>() -> System
    ensures { Fresh T.Scale.unit 1 0 result }
{
    System::new::<T>(1, 0).unwrap()
}
