// A turn of a poll (02, wish 6), with the counts by value. It makes its tests in their order, and changes the poll if none of them refuses.
// (`poll_turn_lent` has it with the counts lent.)
#![tactic(auto)]

ghost use Rattle.std.specs.Prelude.{◌≡◌};
ghost use Rattle.model_poll.specs.Answers.{told_polled_counted};
ghost use Rattle.model_poll.specs.Public.{poll_turn};

use model::{After, Counts, Refusal, Session};
use model_poll::Polled;
use part_registers::{mark, value};

// 02, wish 6: "Each worker walks the same steps, ending with round W": one register operation, what the process becomes by the value read,
// and the answer that it then has. i is p wherever the call is accepted: where it is not, the tests refuse.
#[tactic(auto, using(model_laws::specs::Sounds::sound_few))]
pub fn turn(s: Session, p: usize, c: Counts) -> Result<After<Polled>, Refusal>
    ensures { told_polled_counted s c result ≡ poll_turn s p c }
{
    let n = s.n;
    let limit = s.limit;
    let i = p % 64;
    let q = s.processes[i];
    let own = part_refusals_counted::learn_refusal(q.phase, c);
    session_refusal::first_refusal(session_sound::sound_as(true, s), n, p, own)?;
    let mut session = s;
    let a = part_poll::access(limit, q);
    let x = mark(
        value(&mut session.values, a, q.estimate),
        &mut session.marks,
        a,
    );
    let window = part_window::window(n as u8);
    let left = part_poll::next(window, limit, q, x);
    session.processes[i] = left;
    let answer = part_poll::answer(left);
    Ok(After {
        state: Polled { session, answer },
        counts: part_counts::counted(a, x, c),
    })
}
