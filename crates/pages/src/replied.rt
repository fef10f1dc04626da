// The replies among what came of a run's steps.
ghost use Rattle.std.specs.Prelude.{◌≡◌, IfOk};
ghost use Rattle.pages.specs.Replied.{replied};

use filing::Outcome;
use law::Reply;
use std::alloc::{AllocError, Global};

pub(crate) fn replies(heap: Global, outcomes: &[Outcome]) -> Result<Vec<Reply>, AllocError>
    ensures { IfOk result (λ v. v.items ≡ replied outcomes.now) }
{
    let mut replies = Vec::new(heap);
    for outcome in outcomes {
        if let Outcome::Replied(reply) = outcome {
            replies.push(*reply)?;
        }
    }
    Ok(replies)
}
