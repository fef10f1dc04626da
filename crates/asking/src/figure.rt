// The numbers that a line's words write, each of the form that its place asks for.
ghost use Rattle.std.specs.Prelude.{◌≡◌, Some, Ok};
ghost use Rattle.asking.specs.declared.figure.Form.TheVariants as form;
ghost use Rattle.asking.specs.Figures.{Amount, Numbered, Whole};
ghost use Rattle.asking.specs.Forms.{width_text};

use crate::mistake::Mistake;
use std::fmt;
use std::str::FromStr;

#[derive(Clone, Copy, PartialEq, Eq, Debug)]
pub enum Form {
    // 0 to 4294967295
    Place,
    // 0 to 255
    Trials,
    // signed 32 bits
    Amount,
}

// The numbers that have the form.
impl fmt::Display for Form {
    ghost output = { λ form. Some (width_text form) };

    fn fmt<W: fmt::Write>(&self, f: &mut fmt::Formatter<W>) -> fmt::Result {
        f.write_str(match self {
            Form::Place => "0 to 4,294,967,295",
            Form::Trials => "0 to 255",
            Form::Amount => "-2,147,483,648 to 2,147,483,647",
        })
    }
}

pub(crate) fn place<'a>(word: &'a str) -> Result<usize, Mistake<'a>>
    ensures { Whole form.Place word.now result (λ n. result ≡ Ok n) }
{
    Ok(number::<u32>(Form::Place, word)? as usize)
}

pub(crate) fn trials<'a>(word: &'a str) -> Result<u8, Mistake<'a>>
    ensures { Whole form.Trials word.now result (λ n. result ≡ Ok n) }
{
    number(Form::Trials, word)
}

pub(crate) fn amount<'a>(word: &'a str) -> Result<i32, Mistake<'a>>
    ensures { Amount word.now result (λ n. result ≡ Ok n) }
{
    number(Form::Amount, word)
}

// The number of any type that the word writes.
fn number<'a, N: FromStr>(form: Form, word: &'a str) -> Result<N, Mistake<'a>>
where
    N::Err: Drop,
    ensures { Numbered N.from_str_gives form word.now result }
{
    word.parse().map_err(|_| Mistake::NotANumber { form, word })
}
