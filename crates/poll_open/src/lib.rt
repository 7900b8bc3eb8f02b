// Opening a poll (02, wish 6).
#![tactic(auto)]

ghost use Rattle.std.specs.Prelude.{◌≡◌};
ghost use Rattle.model.specs.Answers.{told_opened};
ghost use Rattle.model_poll.specs.Machine.{poll_opening};

use model::{Caller, Refusal, Session};

// 02, wish 6: "A poll has L = W." A session with that limit; 1 alone refuses it. More processes than the caller's limit (02, wish 9) are
// refused whatever the round limit.
#[tactic(auto, unfolding(model::specs::Machine::opening_for, model_poll::specs::Machine::poll_opening_for))]
pub fn open(caller: Caller, n: usize) -> Result<Session, Refusal>
    ensures { told_opened result ≡ poll_opening caller n }
{
    let most = session_opened::limits_of(caller);
    let processes = most.processes as usize;
    if processes < n {
        return session_open::open(caller, n, 0);
    }
    let window = part_window::window(n as u8);
    session_open::open(caller, n, window)
}
