// A turn of a worker (document 02, wish 11), on what the turn can read and change, by the worker's place.
#![tactic(auto)]

ghost use Rattle.std.specs.Prelude.{◌≡◌, true, cond};
ghost use Rattle.model_house.specs.Turn.{stands as stands_of, after_step as after_step_of, after_learn as after_learn_of, after_poll as after_poll_of, turn_at as turn_at_of};
ghost use Rattle.model_house.specs.declared.Stance.TheVariants.{Working};
ghost use Rattle.model_house.specs.Machine.{turn_by};
ghost use Rattle.model_house.specs.Sound.{seats_fit as seats_fit_of};
ghost use Rattle.model_house_laws.specs.Views.{view_fits};

use model::{Operation, Process, Status};
use model_house::{Place, Stance, View, Worker};
use part_counts::full;
use part_status::status;
use session_sound::sound_as;
use system_house_boards::{in_ward, propose_poll, step_poll};
use system_house_parts::{seat, seats_fit};
use system_house_registers::{read_table, write_house, write_table};

// "Works and looks until decided." A worker "becomes spent in the turn that .. makes its ward seat spent".
fn after_step(q: Process) -> Stance
    ensures { result ≡ after_step_of q }
{
    match status(q.phase) {
        Status::Spent => Stance::Exhausted,
        Status::Outside | Status::Active | Status::Gone => Stance::Working(Place::LearnWard),
    }
}

// Where its seat is as the next place needs it the worker goes on to that; else it takes the other once more.
fn goes_on(q: Process, next: Place, again: Place) -> Stance
    ensures { result ≡ Working (cond (seats_fit_of (Working next) q q) next again) }
{
    if seats_fit(Stance::Working(next), q, q) {
        Stance::Working(next)
    } else {
        Stance::Working(again)
    }
}

// Decided, its seat is as the table write needs it.
#[tactic(auto, unfolding(model_house::specs::Sound::seats_fit))]
fn after_learn(q: Process) -> Stance
    ensures { result ≡ after_learn_of q }
{
    goes_on(q, Place::WriteTable, Place::StepWard)
}

// It polls until the poll answers it: until its seat is as the table read needs it.
#[tactic(auto, unfolding(model_house::specs::Sound::seats_fit))]
fn after_poll(q: Process) -> Stance
    ensures { result ≡ after_poll_of q }
{
    goes_on(q, Place::ReadTable, Place::StepPoll)
}

// The view with another stance in the worker's record.
fn stands(v: View, stance: Stance) -> View
    ensures { result ≡ stands_of v stance }
{
    View {
        worker: Worker { stance, ..v.worker },
        ..v
    }
}

// The turn at each place, clause by clause as `turn_at` has it.
fn turn_at(v: View, p: usize, w: u8, s: usize, hint: bool, place: Place) -> View
    requires { view_fits v ≡ true }
    ensures { result ≡ turn_at_of p w s hint place v }
{
    match place {
        Place::ProposeWard => {
            let b = in_ward(v, Operation::Propose(s, v.worker.value));
            stands(b, Stance::Working(Place::StepWard))
        }
        Place::StepWard => {
            let b = in_ward(v, Operation::Step(s, hint));
            stands(b, after_step(seat(b.session, s)))
        }
        Place::LearnWard => {
            let b = in_ward(v, Operation::Learn(s));
            stands(b, after_learn(seat(b.session, s)))
        }
        // Kept: `as`, here and below, loses no bit by proof; with `From` the answers of two arms no longer closed.
        Place::WriteTable => write_table(v, w as usize, s),
        Place::ProposePoll => stands(
            propose_poll(v, p, w as u32),
            Stance::Working(Place::StepPoll),
        ),
        Place::StepPoll => {
            let b = step_poll(v, p);
            stands(b, after_poll(seat(b.poll, p)))
        }
        Place::ReadTable => read_table(v, p),
        Place::WriteHouse => write_house(v),
    }
}

// Whether a turn can be taken: the boards are sound, and a register operation can be counted.
#[tactic(auto, unfolding(model_house_laws::specs::Views::view_fits))]
fn fits(v: View) -> bool
    ensures { result ≡ view_fits v }
{
    sound_as(false, v.session) && sound_as(true, v.poll) && !full(v.counts)
}

// The turn of worker p, of ward w, whose seat in its ward's session is s. A worker that does not work takes none; a view that does not fit
// is left as it is.
#[tactic(auto, unfolding(model_house::specs::Machine::turn_by, model_house_laws::specs::Views::view_fits))]
pub fn turn_view(v: View, p: usize, w: u8, s: usize, hint: bool) -> View
    ensures { result ≡ cond (view_fits v) (turn_by p w s hint v.worker.stance v) v }
{
    if !fits(v) {
        return v;
    }
    match v.worker.stance {
        Stance::Working(place) => turn_at(v, p, w, s, hint, place),
        Stance::Idle | Stance::Exhausted | Stance::Crashed | Stance::Decided => v,
    }
}
