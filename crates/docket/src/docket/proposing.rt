// Calls of a proposal: proposing, trying, running, narrowing.
ghost use Rattle.std.specs.Prelude.{◌≡◌, List};
ghost use Rattle.source.specs.Meaning.{Meaning};
ghost use Rattle.law.specs.Calls.{Given};
ghost use Rattle.law.specs.Calls.Given.{propose, attempt, run, narrow};
ghost use Rattle.law.specs.History.{Basis, Offer};
ghost use Rattle.law.specs.Law.{AtOnce};
ghost use Rattle.docket.specs.Dockets.{After, Answered, Answers};
ghost use Rattle.docket.specs.Reflects.{Holds, Prepares, Unmoved};

use super::Docket;
use crate::desk::Stage;
use crate::filling::filled;
use enclosure::Enclosure;
use law::{Answer, Fault};
use prepare::Prepared;
use source::Source;
use span::Scale;

impl<C: Source, T: Scale> Docket<C, T> {
    // An approximate inverse by rows, and guessed worths; each coefficient is read once.
    pub(crate) fn propose(&mut self, table: &[i32], guesses: &[i32]) -> Result<Answer, Fault>
        ensures unmoved { Unmoved result self.old.desk self.new.desk }
        ensures replied { Answers C.Source T.Scale.unit (propose table.now guesses.now) result self.old self.new }
    {
        let figures = filled(&self.desk.figures, &self.source)?;
        let prepared = Prepared::new::<T>(&figures, table, guesses)?;
        self.desk.stage = Stage::Prepared(prepared);
        Ok(Answer::Done)
    }

    // Tries the box that the numbers give.
    pub(crate) fn attempt(&mut self, prepared: &Prepared, numbers: &[i32]) -> Result<Answer, Fault>
        ensures unmoved { Unmoved result self.old.desk self.new.desk }
        ensures replied { (M : Meaning) (h : List Given) (o : Offer) → After C.Source T.Scale.unit M h self.old → Prepares T.Scale.unit h o prepared.now → Answered C.Source T.Scale.unit M h (attempt numbers.now) result self.new }
    {
        let held = Enclosure::attempt::<T>(prepared, numbers)?;
        self.desk.stage = Stage::Holding(held);
        Ok(Answer::Done)
    }

    // Tries one box after another, and answers the number of the accepted trial.
    pub(crate) fn run(&mut self, prepared: &Prepared, trials: u8) -> Result<Answer, Fault>
        ensures unmoved { Unmoved result self.old.desk self.new.desk }
        ensures replied { (M : Meaning) (h : List Given) (o : Offer) → After C.Source T.Scale.unit M h self.old → Prepares T.Scale.unit h o prepared.now → Answered C.Source T.Scale.unit M h (run trials) result self.new }
        ensures at_once { (h : List Given) (o : Offer) → Prepares T.Scale.unit h o prepared.now → AtOnce T.Scale.unit h (run trials) result }
    {
        let (trial, held) = Enclosure::run::<T>(prepared, trials)?;
        self.desk.stage = Stage::Holding(held);
        Ok(Answer::Trial(trial))
    }

    // Replaces what is held by its step.
    pub(crate) fn narrow(&mut self, held: Enclosure) -> Result<Answer, Fault>
        ensures unmoved { Unmoved result self.old.desk self.new.desk }
        ensures replied { (M : Meaning) (h : List Given) (b : Basis) → After C.Source T.Scale.unit M h self.old → Holds T.Scale.unit h b held → Answered C.Source T.Scale.unit M h narrow result self.new }
    {
        let mut next = held;
        next.narrow::<T>()?;
        self.desk.stage = Stage::Holding(next);
        Ok(Answer::Done)
    }
}
