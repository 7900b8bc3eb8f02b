// A work turn, with the counts by value. It makes its tests in their order, and changes the session if none of them refuses.
// (`session_step_lent` has it with the counts lent.)
#![tactic(auto)]

ghost use Rattle.std.specs.Prelude.{◌≡◌};
ghost use Rattle.model.specs.Answers.{told_counted};
ghost use Rattle.model.specs.Public.{step as step_of};

use model::{After, Counts, Refusal, Session};
use part_registers::{mark, value};

// 01, "One turn at a time": a work turn, one register operation and what the process becomes by the value read. i is p
// wherever the call is accepted: where it is not, the tests refuse.
#[tactic(auto, using(model_laws::specs::Sounds::sound_few))]
pub fn step(s: Session, p: usize, leader: bool, c: Counts) -> Result<After<Session>, Refusal>
    ensures { told_counted s c result ≡ step_of s p leader c }
{
    let n = s.n;
    let limit = s.limit;
    let i = p % 64;
    let q = s.processes[i];
    let own = part_refusals_counted::step_refusal(q.phase, c);
    session_refusal::first_refusal(session_sound::sound(s), n, p, own)?;
    let mut state = s;
    let a = part_access::access(limit, q, leader);
    let x = mark(value(&mut state.values, a, q.estimate), &mut state.marks, a);
    state.decision = part_decision::decision(state.decision, a, q.estimate);
    let window = part_window::window(n as u8);
    state.processes[i] = part_next::next(window, limit, q, leader, x);
    let counts = part_counts::counted(a, x, c);
    Ok(After { state, counts })
}
