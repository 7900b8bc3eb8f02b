// Functions of a worker's record, a seat's record, and whether a worker's seats are as its next turn needs (document 02, wish 11).
#![tactic(auto)]

ghost use Rattle.std.specs.Prelude.{◌-◌, ◌≡◌};
ghost use Rattle.model.specs.Board.{process_at};
ghost use Rattle.model.specs.Refusal.{status as status_of, is_outside as is_outside_of, is_active as is_active_of, is_decided as is_decided_of};
ghost use Rattle.model_poll.specs.Turn.{answer_of, is_answered as is_answered_of, is_committed as is_committed_of};
ghost use Rattle.model_house.specs.House.{ward_seats as ward_seats_of};
ghost use Rattle.model_house.specs.Machine.{phase_of as phase_for};
ghost use Rattle.model_house.specs.Sound.{seats_fit as seats_fit_of};
ghost use Rattle.model_house_laws.specs.Sounds.{numbers_sound as numbers_sound_of};

use model::{Phase, Process, Session, Status};
use model_house::{Place, Stance, Worker};
use model_poll::Answer;

// 02, wish 11: "Seat refusals 4 to 9 and 16 keep their order": the phase that has a worker's stance in a session.
// Kept: a function and no `From`, since an edit and a clause name it (`phase_of`).
pub fn phase_of(stance: Stance) -> Phase
    ensures { result ≡ phase_for stance }
{
    match stance {
        Stance::Idle => Phase::Idle,
        Stance::Working(_) => Phase::Waiting,
        Stance::Exhausted => Phase::Exhausted,
        Stance::Crashed => Phase::Crashed,
        Stance::Decided => Phase::Decided,
    }
}

// The record of process p. Past the end there is none, and one that is out stands for it.
#[tactic(auto, using(base::specs::Arrays::length_mapped))]
pub fn seat(s: Session, p: usize) -> Process
    ensures { result ≡ process_at s p }
{
    s.processes.get(p).copied().unwrap_or_default()
}

// 02, wish 11: "A ward session has n - c + 1 seats".
pub fn ward_seats(n: usize, c: usize) -> usize
    ensures { result ≡ ward_seats_of n c }
{
    n.saturating_sub(c.saturating_sub(1))
}

fn is_outside(phase: Phase) -> bool
    ensures { result ≡ is_outside_of (status_of phase) }
{
    matches!(part_status::status(phase), Status::Outside)
}

fn is_active(phase: Phase) -> bool
    ensures { result ≡ is_active_of (status_of phase) }
{
    matches!(part_status::status(phase), Status::Active)
}

// 02, wish 11: "an outer round not 1 to 8, a proposed worker without a value".
pub fn numbers_sound(q: Worker) -> bool
    ensures { result ≡ numbers_sound_of q }
{
    1 <= q.outer && q.outer <= 8 && (is_outside(phase_of(q.stance)) || 0 < q.value)
}

fn is_decided(phase: Phase) -> bool
    ensures { result ≡ is_decided_of phase }
{
    matches!(phase, Phase::Decided)
}

fn is_answered(q: Process) -> bool
    ensures { result ≡ is_answered_of (answer_of q) }
{
    matches!(part_poll::answer(q), Answer::Commits(_) | Answer::Adopts(_))
}

fn is_committed(q: Process) -> bool
    ensures { result ≡ is_committed_of (answer_of q) }
{
    matches!(part_poll::answer(q), Answer::Commits(_))
}

// 02, wish 11: "a seat not out, working, decided or answered (committed, before a house write) as a working worker's next turn needs". a is
// the worker's seat in its ward's session, b its seat in the poll.
#[tactic(auto, unfolding(model_house::specs::Sound::seats_fit))]
pub fn seats_fit(stance: Stance, a: Process, b: Process) -> bool
    ensures { result ≡ seats_fit_of stance a b }
{
    match stance {
        Stance::Working(Place::ProposeWard) => is_outside(a.phase),
        Stance::Working(Place::StepWard | Place::LearnWard) => is_active(a.phase),
        Stance::Working(Place::WriteTable) => is_decided(a.phase),
        Stance::Working(Place::ProposePoll) => is_outside(b.phase),
        Stance::Working(Place::StepPoll) => is_active(b.phase),
        Stance::Working(Place::ReadTable) => is_answered(b),
        Stance::Working(Place::WriteHouse) => is_committed(b),
        Stance::Idle | Stance::Exhausted | Stance::Crashed | Stance::Decided => true,
    }
}
