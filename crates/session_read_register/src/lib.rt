// The read-out of a register of a session (document 01, "Standing values"), given any session at all.
#![tactic(auto)]

ghost use Rattle.std.specs.Prelude.{◌≡◌};
ghost use Rattle.model.specs.Answers.{told_register};
ghost use Rattle.model.specs.ReadOut.{register as register_of};

use model::{Refusal, Register, Session};

// "Standing values": "Other read-outs return T[r] and C[r]". 3, then 14 for a round not 1 to L.
#[tactic(auto, using(base::specs::Bools::and_left, base::specs::Bools::and_right, model_laws::specs::Sounds::sound_low), unfolding(model::specs::ReadOut::register))]
pub fn register(s: Session, round: usize) -> Result<Register, Refusal>
    ensures { told_register result ≡ register_of s round }
{
    if !session_sound::sound(s) {
        return Err(Refusal::Unsound);
    }
    if !((1 <= round) & (round <= s.limit)) {
        return Err(Refusal::NoSuchRound);
    }
    let index = round - 1;
    Ok(Register {
        value: s.values[index],
        marked: s.marks[index],
    })
}
