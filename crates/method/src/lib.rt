// What the enclosure method computes, and why it is right. The definitions are in specs/, the
// proofs in proofs/; the one function here has the theorems as its contract.
#![tactic(auto)]

ghost use Rattle.method.specs.Sound.{Soundness, FirstAccepted, NeverWidens};

pub fn stands() -> u8
    ensures sound { Soundness }
    ensures first { FirstAccepted }
    ensures narrows { NeverWidens }
{
    0
}
