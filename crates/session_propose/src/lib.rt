// Proposing. It makes its tests in their order, and changes the session if none of them refuses.
#![tactic(auto)]

ghost use Rattle.std.specs.Prelude.{◌≡◌};
ghost use Rattle.model.specs.Answers.{told};
ghost use Rattle.model.specs.Public.{propose_as as propose_as_of, propose as propose_of};

use model::{Refusal, Session};

// 01, "One turn at a time", proposal, to a session or (02, wish 6) to a poll, where 3 is by a poll's soundness. i is p wherever the call is
// accepted: where it is not, the tests refuse.
pub fn propose_as(poll: bool, s: Session, p: usize, v: u32) -> Result<Session, Refusal>
    ensures { told s result ≡ propose_as_of poll s p v }
{
    let i = p % 64;
    let q = s.processes[i];
    let own = part_refusals::propose_refusal(s.closed, v, q.phase);
    session_refusal::first_refusal(session_sound::sound_as(poll, s), s.n, p, own)?;
    let mut after = s;
    after.processes[i] = part_moves::proposed(q, v);
    Ok(after)
}

// To a session.
// Kept: `Ok(..?)`, and not the answer handed on as it is. Handed on, a caller that takes the session out by `?` copies it twice more
// (docs/BENCHMARKS.md has the times, measured side by side).
pub fn propose(s: Session, p: usize, v: u32) -> Result<Session, Refusal>
    ensures { told s result ≡ propose_of s p v }
{
    Ok(propose_as(false, s, p, v)?)
}
