// Calls with lists of amounts, from the words that follow the name.
ghost use Rattle.std.specs.Prelude.{vec_items};
ghost use Rattle.asking.specs.Lines.{Amounts, Got, Heard, SaysPropose, SaysTry, Stroke, texts};

use crate::asked::Asked;
use crate::figure::amount;
use crate::mistake::{Mistake, Unread};
use std::alloc::Global;

// R by rows, a stroke, and the guesses.
pub(crate) fn propose<'a>(heap: Global, words: &[&'a str]) -> Result<Asked, Unread<'a>>
    ensures { Heard result (SaysPropose (texts words.now)) }
{
    let stroke = first_stroke(words).ok_or(Mistake::NoStroke)?;
    let table = amounts(heap, &words[..stroke])?;
    let guesses = amounts(heap, &words[stroke + 1..])?;
    Ok(Asked::Propose { table, guesses })
}

pub(crate) fn attempt<'a>(heap: Global, words: &[&'a str]) -> Result<Asked, Unread<'a>>
    ensures { Heard result (SaysTry (texts words.now)) }
{
    let numbers = amounts(heap, words)?;
    Ok(Asked::Try { numbers })
}

fn first_stroke(words: &[&str]) -> Option<usize>
    ensures { Stroke (texts words.now) result }
{
    words.iter().position(|word| *word == "/")
}

fn amounts<'a>(heap: Global, words: &[&'a str]) -> Result<Vec<i32>, Unread<'a>>
    ensures { Heard result (λ r. Amounts (texts words.now) r (λ ns. Got vec_items ns r)) }
{
    let mut numbers = Vec::new(heap);
    for word in words {
        numbers.push(amount(word)?)?;
    }
    Ok(numbers)
}
