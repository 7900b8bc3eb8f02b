// When a process' record is sound (document 01, "Numbers returned", last paragraph; 02, wish 6).
#![tactic(auto)]

ghost use Rattle.std.specs.Prelude.{◌≡◌, ◌&&◌, ◌||◌, leb, ltb};
ghost use Rattle.model.specs.Refusal.{status, is_outside};
ghost use Rattle.model.specs.Sound.{sound_process_as};

use model::{Phase, Process};

// A record that is not out: it is a process', with "a value above 0 and a round of at most L".
// (A call in each arm, and no `let` before the `match`: records that are out do not make the test.)
fn held(member: bool, limit: usize, q: Process) -> bool
    ensures { result ≡ member && ltb 0 q.estimate && leb q.round limit }
{
    member & (0 < q.estimate) & (q.round <= limit)
}

// 01: "records from n on are out; out has round 0 and value 0, every other stance a value above 0 and a round of at most L", and the
// clause of the phase, in a session or (02, wish 6) in a poll.
#[tactic(auto, using(model_laws::specs::SoundRecords::near, model_laws::specs::SoundRecords::out, model_laws::specs::SoundRecords::one, model_laws::specs::SoundRecords::free, model_laws::specs::SoundRecords::two, model_laws::specs::SoundRecords::three), unfolding(model::specs::Sound::sound_phase_as))]
pub fn record_sound(poll: bool, window: usize, limit: usize, member: bool, q: Process) -> bool
    ensures { result ≡ (member || is_outside (status q.phase)) && sound_process_as poll window limit q }
{
    let round = q.round;
    match q.phase {
        Phase::Idle => (q.estimate == 0) & (round <= limit) & (round == 0),
        Phase::Waiting => held(member, limit, q) & (!poll | (round < window)),
        Phase::Write => held(member, limit, q) & (1 <= round),
        Phase::Scan(k) => held(member, limit, q) & (1 <= round) & (round < k) & (k <= limit),
        Phase::Adopt(k) => held(member, limit, q) & (1 <= round) & (round <= k) & (k <= limit),
        Phase::Compare(i) | Phase::Flag(i) => held(member, limit, q)
            & (1 <= round)
            & (i < round)
            & (i < window),
        Phase::CheckMark(i) | Phase::CheckValue(i) => held(member, limit, q)
            & (window <= round)
            & (i < window),
        Phase::Commit => held(member, limit, q) & (window <= round),
        Phase::Exhausted => held(member, limit, q) & !poll & (round == limit),
        Phase::Crashed => held(member, limit, q),
        Phase::Decided => held(member, limit, q) & !poll,
        Phase::HasCommitted | Phase::HasAdopted => held(member, limit, q)
            & poll
            & (round == window),
    }
}
