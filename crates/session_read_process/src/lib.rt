// The read-out of a seat's record (document 01, "Standing values"), given any session at all.
#![tactic(auto)]

ghost use Rattle.std.specs.Prelude.{◌≡◌};
ghost use Rattle.model.specs.Answers.{told_process};
ghost use Rattle.model.specs.ReadOut.{process_record_as as process_record_as_of, process_record as process_record_of};

use model::{Process, Refusal, Session};

// "Standing values": ".. a seat's record". 3, then 4 for a process n or above. 02, wish 6: "Seats are read out as in sessions", of polls,
// where 3 is by a poll's soundness.
#[tactic(auto, using(model_laws::specs::Sounds::sound_few), unfolding(model::specs::Sound::sound_as, model::specs::ReadOut::process_record_as))]
pub fn process_record_as(poll: bool, s: Session, p: usize) -> Result<Process, Refusal>
    ensures { told_process result ≡ process_record_as_of poll s p }
{
    if !session_sound::sound_as(poll, s) {
        return Err(Refusal::Unsound);
    }
    if s.n <= p {
        return Err(Refusal::NoSuchProcess);
    }
    Ok(s.processes[p])
}

// Of a session.
pub fn process_record(s: Session, p: usize) -> Result<Process, Refusal>
    ensures { told_process result ≡ process_record_of s p }
{
    process_record_as(false, s, p)
}
