// From the words of a line to the call that they make.
ghost use Rattle.std.specs.Prelude.{◌≡◌, ◌≤◌, length};
ghost use Rattle.script.specs.Reading.{Number, Numbers, Read, texts};

use crate::call::Call;
use crate::kind::Kind;
use crate::mistake::Mistake;

// No call takes more numbers.
const MOST: usize = 4;

// The call that a line makes, whose first word is its name and the others its numbers.
pub fn read<'a>(name: &'a str, words: &[&'a str]) -> Result<Call, Mistake<'a>>
    ensures { Read name.now (texts words.now) result }
{
    let Ok(kind) = name.parse::<Kind>() else {
        return Err(Mistake::UnknownCall { word: name });
    };
    let given = words.len();
    if given != kind.count() {
        return Err(Mistake::WrongCount { kind, given });
    }
    let read = numbers(words)?;
    Call::new(kind, &read[..given]).ok_or(Mistake::WrongCount { kind, given })
}

// The whole number that a word writes, where it is one and fits.
pub fn number(word: &str) -> Option<i64>
    ensures { Number word.now result }
{
    word.parse::<i64>().ok()
}

// The words' numbers, in the first places; the others stay 0. In an array, since reading a line
// takes no memory that it could run out of.
fn numbers<'a>(words: &[&'a str]) -> Result<[i64; MOST], Mistake<'a>>
    requires { length words.now ≤ 4 }
    ensures { Numbers (texts words.now) result }
{
    let mut read = [0; MOST];
    for (i, word) in words.iter().enumerate() {
        let Some(n) = number(word) else {
            return Err(Mistake::NotANumber { word });
        };
        read[i] = n;
    }
    Ok(read)
}
