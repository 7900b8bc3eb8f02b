// Crashing. It makes its tests in their order, and changes the session if none of them refuses.
#![tactic(auto)]

ghost use Rattle.std.specs.Prelude.{◌≡◌};
ghost use Rattle.model.specs.Answers.{told};
ghost use Rattle.model.specs.Public.{crash_as as crash_as_of, crash as crash_of};

use model::{Refusal, Session};

// 01, "One turn at a time", crash, in a session or (02, wish 6) in a poll, where 3 is by a poll's soundness. i is p wherever the call is
// accepted: where it is not, the tests refuse.
pub fn crash_as(poll: bool, s: Session, p: usize) -> Result<Session, Refusal>
    ensures { told s result ≡ crash_as_of poll s p }
{
    let i = p % 64;
    let q = s.processes[i];
    let own = part_refusals::crash_refusal(q.phase);
    session_refusal::first_refusal(session_sound::sound_as(poll, s), s.n, p, own)?;
    let mut after = s;
    after.processes[i] = part_moves::crashed(q);
    Ok(after)
}

// In a session.
// Kept: `Ok(..?)`, and not the answer handed on as it is. Handed on, a caller that takes the session out by `?` copies it twice more
// (docs/BENCHMARKS.md has the times, measured side by side).
pub fn crash(s: Session, p: usize) -> Result<Session, Refusal>
    ensures { told s result ≡ crash_of s p }
{
    Ok(crash_as(false, s, p)?)
}
