// The read-out of D (document 01, "Standing values"), given any session at all.
#![tactic(auto)]

ghost use Rattle.std.specs.Prelude.{◌≡◌};
ghost use Rattle.model.specs.Answers.{told_decision};
ghost use Rattle.model.specs.ReadOut.{decision as decision_of};

use model::{Refusal, Session};

// "Standing values": ".. or D". 3 alone.
#[tactic(auto, unfolding(model::specs::ReadOut::decision))]
pub fn decision(s: Session) -> Result<u32, Refusal>
    ensures { told_decision result ≡ decision_of s }
{
    if session_sound::sound(s) {
        Ok(s.decision)
    } else {
        Err(Refusal::Unsound)
    }
}
