// A look, with the counts by value. (`session_step_lent` has it with the counts lent.)
#![tactic(auto)]

ghost use Rattle.std.specs.Prelude.{◌≡◌};
ghost use Rattle.model.specs.Answers.{told_counted};
ghost use Rattle.model.specs.Public.{learn as learn_of};

use model::{Access, After, Counts, Refusal, Session};

// 01, "One turn at a time": a look reads D; where it is filled, the process is decided and takes its number.
// i is p wherever the call is accepted: where it is not, the tests refuse.
pub fn learn(s: Session, p: usize, c: Counts) -> Result<After<Session>, Refusal>
    ensures { told_counted s c result ≡ learn_of s p c }
{
    let i = p % 64;
    let q = s.processes[i];
    let own = part_refusals_counted::learn_refusal(q.phase, c);
    session_refusal::first_refusal(session_sound::sound(s), s.n, p, own)?;
    let mut state = s;
    state.processes[i] = part_moves::learnt(q, s.decision);
    let counts = part_counts::counted(Access::ReadDecision, 0, c);
    Ok(After { state, counts })
}
