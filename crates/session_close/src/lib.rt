// Closing (02, wish 10). It sets the closed mark of a sound session, and changes nothing else.
#![tactic(auto)]

ghost use Rattle.std.specs.Prelude.{◌≡◌};
ghost use Rattle.model.specs.Answers.{told};
ghost use Rattle.model.specs.Public.{close as close_of};

use model::{Refusal, Session};

// 02, wish 10: "A close sets it, also where it is set already"; "Close: 3."
#[tactic(auto, unfolding(model::specs::Public::close_for, model::specs::Sound::sound_as))]
pub fn close(s: Session) -> Result<Session, Refusal>
    ensures { told s result ≡ close_of s }
{
    let mut after = s;
    if !session_sound::sound(after) {
        return Err(Refusal::Unsound);
    }
    after.closed = true;
    Ok(after)
}
