// The standing values of a session, put to a lent buffer (document 01, "Standing values"). 3 where the session is not sound, then 15
// where the buffer is too short; refused, the lent buffer is as it was.
#![tactic(auto)]

ghost use Rattle.std.specs.Prelude.{◌≡◌, ◌≤◌, ◌++◌, length, drop};
ghost use Rattle.model.specs.Answers.{told_count};
ghost use Rattle.model.specs.ReadOut.{standing_answer, standing_buffer};

use model::{Refusal, Session};

// "Standing values": "to a lent buffer .., from its first place on ..; later buffer places keep their numbers".
fn copy(values: &[u32], buffer: &mut [u32])
    requires { length values.now ≤ length buffer.old }
    ensures { buffer.new ≡ values.now ++ drop (length values.now) buffer.old }
{
    buffer[..values.len()].copy_from_slice(values);
}

// "Standing values": "It returns how many". 3, then 15 "exactly when the buffer is shorter than that count", which is known before
// the buffer is written.
#[tactic(auto, using(model_laws::specs::Sounds::sound_low, crate::proofs::Standing::unsound, crate::proofs::Standing::short, crate::proofs::Standing::list_written))]
pub fn standing_values(s: Session, buffer: &mut [u32]) -> Result<usize, Refusal>
    ensures answers { told_count result ≡ standing_answer s buffer.old }
    ensures writes { buffer.new ≡ standing_buffer s buffer.old }
{
    if !session_sound::sound(s) {
        return Err(Refusal::Unsound);
    }
    let listed = session_values_list::list(s.values, s.limit);
    let count = listed.count;
    if buffer.len() < count {
        return Err(Refusal::BadBuffer);
    }
    copy(&listed.values[..count], buffer);
    Ok(count)
}
