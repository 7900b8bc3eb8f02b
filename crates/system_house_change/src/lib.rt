// Proposals, house looks and crashes of a house's workers (document 02, wish 11). They make their tests in their order, and change the
// house if none of them refuses.
#![tactic(auto)]

ghost use Rattle.std.specs.Prelude.{◌≡◌};
ghost use Rattle.model_house.specs.Answers.{told_house, told_house_counted};
ghost use Rattle.model_house.specs.Machine.{house_learnt};
ghost use Rattle.model_house.specs.Public.{house_propose, house_learn, house_crash};

use model::{Access, After, Counts, Refusal};
use model_house::{House, Place, Stance, Worker};

// 3, 4, 5, 6; then worker p holds v, and its next turn is the first of outer round 1. i is p wherever a call is accepted, here and below:
// where it is not, the tests refuse.
pub fn propose(h: House, p: usize, v: u32) -> Result<House, Refusal>
    ensures { told_house h result ≡ house_propose h p v }
{
    let i = p % 16;
    let phase = system_house_parts::phase_of(h.workers[i].stance);
    let own = part_refusals::propose_refusal(false, v, phase);
    session_refusal::first_refusal(system_house_sound::sound(h), h.n, p, own)?;
    let mut after = h;
    after.workers[i] = Worker {
        stance: Stance::Working(Place::ProposeWard),
        outer: 1,
        value: v,
    };
    Ok(after)
}

// 02, wish 11: "A crash or house look changes no ward or poll seat." 3, 4, 7, 8; then worker p is crashed, and its outer round and value
// stay.
pub fn crash(h: House, p: usize) -> Result<House, Refusal>
    ensures { told_house h result ≡ house_crash h p }
{
    let i = p % 16;
    let phase = system_house_parts::phase_of(h.workers[i].stance);
    let own = part_refusals::crash_refusal(phase);
    session_refusal::first_refusal(system_house_sound::sound(h), h.n, p, own)?;
    let mut after = h;
    after.workers[i].stance = Stance::Crashed;
    Ok(after)
}

// 02, wish 11: "A house look at the house register .. ends it as decided if filled", with the number found, x.
fn learnt(q: Worker, x: u32) -> Worker
    ensures { result ≡ house_learnt q x }
{
    if x == 0 {
        return q;
    }
    Worker {
        stance: Stance::Decided,
        value: x,
        ..q
    }
}

// 02, wish 11: a house look, "taken instead of a turn by a working or spent worker". 3, 4, 7, 8, 16; then one read, of the house's decision
// register.
pub fn learn(h: House, p: usize, c: Counts) -> Result<After<House>, Refusal>
    ensures { told_house_counted h c result ≡ house_learn h p c }
{
    let i = p % 16;
    let q = h.workers[i];
    let own = part_refusals_counted::learn_refusal(system_house_parts::phase_of(q.stance), c);
    session_refusal::first_refusal(system_house_sound::sound(h), h.n, p, own)?;
    let mut state = h;
    state.workers[i] = learnt(q, h.decision);
    let counts = part_counts::counted(Access::ReadDecision, 0, c);
    Ok(After { state, counts })
}
