// A turn of a worker of a house (document 02, wish 11), with the counts by value. It makes its tests in their order, and changes the house
// if none of them refuses. (`system_house_lent` has it with the counts lent.)
#![tactic(auto)]

ghost use Rattle.std.specs.Prelude.{◌≡◌};
ghost use Rattle.model_house.specs.Answers.{told_house_counted};
ghost use Rattle.model_house.specs.Public.{house_turn};

use model::{After, Counts, Refusal};
use model_house::{House, View};

// 3, 4, 7, 8, 9, 16; then one turn of worker p, on what it can read and change. i is p wherever the call is accepted: where it is not, the
// tests refuse.
pub fn turn(h: House, p: usize, hint: bool, c: Counts) -> Result<After<House>, Refusal>
    ensures { told_house_counted h c result ≡ house_turn h p hint c }
{
    let i = p % 16;
    let worker = h.workers[i];
    let own = part_refusals_counted::step_refusal(system_house_parts::phase_of(worker.stance), c);
    session_refusal::first_refusal(system_house_sound::sound(h), h.n, p, own)?;
    let w = h.wards[i];
    let s = system_house_wards::seat_of(h.wards, i);
    let r = worker.outer - 1;
    let k = 8 * (w as usize - 1) + r;
    let table = h.table;
    let v = View {
        session: h.sessions[k],
        poll: h.polls[r],
        table,
        decision: h.decision,
        worker,
        counts: c,
    };
    let left = system_house_view::turn_view(v, i, w, s, hint);
    let mut house = h;
    house.workers[i] = left.worker;
    house.sessions[k] = left.session;
    house.polls[r] = left.poll;
    let rows = left.table;
    house.table = rows;
    house.decision = left.decision;
    Ok(After {
        state: house,
        counts: left.counts,
    })
}
