// Calls of a fixed count of numbers, from the words that follow the name.
ghost use Rattle.std.specs.Prelude.{◌≡◌, length};
ghost use Rattle.asking.specs.declared.mistake.Mistake.TheVariants.{WrongCount};
ghost use Rattle.asking.specs.Lines.{SaysOpen, SaysMatrix, SaysPayout, SaysRange, SaysRun, SaysRow, SaysAlone, texts};

use crate::asked::Asked;
use crate::figure;
use crate::kind::Kind;
use crate::mistake::Mistake;
use source::Place;

pub(crate) fn open<'a>(words: &[&'a str]) -> Result<Asked, Mistake<'a>>
    ensures { SaysOpen (texts words.now) result }
{
    let &[states, settings] = words else {
        return Err(miscounted(Kind::Open, words));
    };
    let states = figure::place(states)?;
    let settings = figure::place(settings)?;
    Ok(Asked::Open { states, settings })
}

pub(crate) fn post_matrix<'a>(words: &[&'a str]) -> Result<Asked, Mistake<'a>>
    ensures { SaysMatrix (texts words.now) result }
{
    let &[part, row, column, amount] = words else {
        return Err(miscounted(Kind::PostMatrix, words));
    };
    let part = figure::place(part)?;
    let row = figure::place(row)?;
    let column = figure::place(column)?;
    let amount = figure::amount(amount)?;
    let place = Place::Matrix { part, row, column };
    Ok(Asked::Post { place, amount })
}

pub(crate) fn post_payout<'a>(words: &[&'a str]) -> Result<Asked, Mistake<'a>>
    ensures { SaysPayout (texts words.now) result }
{
    let &[part, row, amount] = words else {
        return Err(miscounted(Kind::PostPayout, words));
    };
    let part = figure::place(part)?;
    let row = figure::place(row)?;
    let amount = figure::amount(amount)?;
    let place = Place::Payout { part, row };
    Ok(Asked::Post { place, amount })
}

pub(crate) fn range<'a>(words: &[&'a str]) -> Result<Asked, Mistake<'a>>
    ensures { SaysRange (texts words.now) result }
{
    let &[part, low, high] = words else {
        return Err(miscounted(Kind::Range, words));
    };
    let part = figure::place(part)?;
    let low = figure::amount(low)?;
    let high = figure::amount(high)?;
    Ok(Asked::Range { part, low, high })
}

pub(crate) fn run<'a>(words: &[&'a str]) -> Result<Asked, Mistake<'a>>
    ensures { SaysRun (texts words.now) result }
{
    let &[trials] = words else {
        return Err(miscounted(Kind::Run, words));
    };
    let trials = figure::trials(trials)?;
    Ok(Asked::Run { trials })
}

pub(crate) fn row<'a>(words: &[&'a str]) -> Result<Asked, Mistake<'a>>
    ensures { SaysRow (texts words.now) result }
{
    let &[row] = words else {
        return Err(miscounted(Kind::Row, words));
    };
    let row = figure::place(row)?;
    Ok(Asked::Row { row })
}

// A call that takes no numbers.
pub(crate) fn alone<'a>(kind: Kind, asked: Asked, words: &[&'a str]) -> Result<Asked, Mistake<'a>>
    ensures { SaysAlone kind asked (texts words.now) result }
{
    if words.is_empty() {
        Ok(asked)
    } else {
        Err(miscounted(kind, words))
    }
}

fn miscounted<'a>(kind: Kind, words: &[&'a str]) -> Mistake<'a>
    ensures { result ≡ WrongCount kind (length words.now) }
{
    let given = words.len();
    Mistake::WrongCount { kind, given }
}
