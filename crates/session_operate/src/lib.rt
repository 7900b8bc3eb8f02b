// Any operation on a session, given any session at all, with the counts by value.
#![tactic(auto)]

ghost use Rattle.std.specs.Prelude.{◌≡◌};
ghost use Rattle.model.specs.Answers.{told_counted};
ghost use Rattle.model.specs.Public.{operate as operate_of};

use model::{After, Counts, Operation, Refusal, Session};

// 01, "Numbers returned": 3, 4, then the operation's own numbers. A proposal and a crash leave the counts as they are.
// Kept: a session and counts apart, here and in the operations, since theorems speak of these contracts (`operate_contract`).
#[tactic(auto, using(model_laws::specs::Answers::propose_counts, model_laws::specs::Answers::crash_counts), unfolding(model::specs::Public::step_for, model::specs::Public::learn_for))]
pub fn operate(s: Session, c: Counts, o: Operation) -> Result<After<Session>, Refusal>
    ensures { told_counted s c result ≡ operate_of s c o }
{
    let state = match o {
        Operation::Propose(p, v) => session_propose::propose(s, p, v)?,
        Operation::Step(p, leader) => return session_step::step(s, p, leader, c),
        Operation::Learn(p) => return session_learn::learn(s, p, c),
        Operation::Crash(p) => session_crash::crash(s, p)?,
    };
    Ok(After { state, counts: c })
}
