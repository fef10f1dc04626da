// Posts that add up, and sheets that are too short.
ghost use Rattle.std.specs.Prelude.{◌≡◌};
ghost use Rattle.filed.specs.Filed.{Filed, framing_number};

use sheet::Framed;
use span::Millionths;
use system::System;

// Posts 600,000, 400,000 and 1 at one matrix place, and tells what the last was turned down with.
#[tactic(auto, using(crate::proofs::Computed::filed))]
pub fn three_posts() -> Option<u8>
    ensures { Filed }
{
    let mut system = System::new::<Millionths>(1, 0).ok()?;
    system.post_matrix(0, 0, 0, 600_000).ok()?;
    system.post_matrix(0, 0, 0, 400_000).ok()?;
    match system.post_matrix(0, 0, 0, 1) {
        Ok(()) => None,
        Err(fault) => Some(fault.number()),
    }
}

// The number that bytes which are no sheet get.
pub fn framing_number(bytes: &[u8]) -> Option<u8>
    ensures { result ≡ framing_number bytes.now }
{
    match Framed::new::<Millionths>(bytes) {
        Ok(_) => None,
        Err(fault) => Some(fault.number()),
    }
}
