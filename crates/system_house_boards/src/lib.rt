// The turns of a worker in its ward's session and in the poll of its outer round (document 02, wish 11), on what a turn can read and
// change. A session or poll that is not sound is left as it is, and so is all else.
// Kept: that is said in three clauses, since no public function of this project has a `requires` (docs/DECISIONS.md, 41).
#![tactic(auto)]

ghost use Rattle.std.specs.Prelude.{◌≡◌, cond};
ghost use Rattle.model.specs.Sound.{sound, sound_poll};
ghost use Rattle.model_poll.specs.Machine.{proposes, turns};
ghost use Rattle.model_house.specs.Turn.{in_ward as in_ward_of, in_poll};

use model::Operation;
use model_house::View;

// An operation of the ward's session.
#[tactic(auto, using(model_house_laws::specs::Views::ward_performs))]
pub fn in_ward(v: View, o: Operation) -> View
    ensures { result ≡ cond (sound v.session) (in_ward_of v o) v }
{
    match session_operate::operate(v.session, v.counts, o) {
        Ok(left) => View {
            session: left.state,
            counts: left.counts,
            ..v
        },
        Err(_) => v,
    }
}

// A proposal of w to the poll by process p.
#[tactic(auto, using(model_house_laws::specs::Views::proposal_performs))]
pub fn propose_poll(v: View, p: usize, w: u32) -> View
    ensures { result ≡ cond (sound_poll v.poll) (in_poll v (proposes p w)) v }
{
    match poll_change::propose(v.poll, p, w) {
        Ok(poll) => View { poll, ..v },
        Err(_) => v,
    }
}

// A turn of the poll by process p.
#[tactic(auto, using(model_house_laws::specs::Views::turn_performs))]
pub fn step_poll(v: View, p: usize) -> View
    ensures { result ≡ cond (sound_poll v.poll) (in_poll v (turns p)) v }
{
    match poll_turn::turn(v.poll, p, v.counts) {
        Ok(after) => View {
            poll: after.state.session,
            counts: after.counts,
            ..v
        },
        Err(_) => v,
    }
}
