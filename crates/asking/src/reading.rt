// From the words of a line to what they ask.
ghost use Rattle.asking.specs.Lines.{Heard, Line, Says, texts};

use crate::asked::Asked;
use crate::kind::Kind;
use crate::mistake::{Mistake, Unread};
use crate::{fixed, lists};
use std::alloc::Global;

// What a line asks, whose first word is its name.
pub fn read<'a>(heap: Global, name: &'a str, words: &[&'a str]) -> Result<Asked, Unread<'a>>
    ensures { Heard result (Line name.now (texts words.now)) }
{
    let Ok(kind) = name.parse::<Kind>() else {
        return Err(Unread::Mistaken(Mistake::UnknownCall { word: name }));
    };
    said(heap, kind, words)
}

fn said<'a>(heap: Global, kind: Kind, words: &[&'a str]) -> Result<Asked, Unread<'a>>
    ensures { Heard result (Says kind (texts words.now)) }
{
    let asked = match kind {
        Kind::Open => fixed::open(words)?,
        Kind::PostMatrix => fixed::post_matrix(words)?,
        Kind::PostPayout => fixed::post_payout(words)?,
        Kind::Range => fixed::range(words)?,
        Kind::Propose => lists::propose(heap, words)?,
        Kind::Try => lists::attempt(heap, words)?,
        Kind::Run => fixed::run(words)?,
        Kind::Narrow => fixed::alone(kind, Asked::Narrow, words)?,
        Kind::Row => fixed::row(words)?,
        Kind::Table => fixed::alone(kind, Asked::Table, words)?,
    };
    Ok(asked)
}
