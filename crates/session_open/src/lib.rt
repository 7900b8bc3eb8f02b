// Opening a session.
#![tactic(auto)]

ghost use Rattle.std.specs.Prelude.{◌≡◌};
ghost use Rattle.model.specs.Answers.{code, told_opened};
ghost use Rattle.model.specs.Board.{limits_of};
ghost use Rattle.model.specs.Refusal.{refusal, open_tests};
ghost use Rattle.model.specs.Machine.{opening};

use model::{Caller, Refusal, Session};

// 01, "Numbers returned", opening: 1, 2, within the caller's limits (02, wish 9: "1 and 2 speak of the caller's limits").
#[tactic(auto, using(base::specs::Bools::and_right), unfolding(model::specs::Window::window))]
pub fn open_refusal(caller: Caller, n: usize, limit: usize) -> Result<(), Refusal>
    ensures { code result ≡ refusal (open_tests (limits_of caller) n limit) }
{
    let most = session_opened::limits_of(caller);
    let processes = most.processes as usize;
    let rounds = most.rounds as usize;
    if !((1 <= n) & (n <= processes)) {
        return Err(Refusal::BadProcessCount);
    }
    let window = part_window::window(n as u8);
    if !((window <= limit) & (limit <= rounds)) {
        return Err(Refusal::BadRoundLimit);
    }
    Ok(())
}

// 01, "The board and the seats" and "Numbers returned", opening. Refused, no session is made.
#[tactic(auto, using(model_laws::specs::Told::opened_ok, model_laws::specs::Told::opened_err), unfolding(model::specs::Machine::opening_for))]
pub fn open(caller: Caller, n: usize, limit: usize) -> Result<Session, Refusal>
    ensures { told_opened result ≡ opening caller n limit }
{
    open_refusal(caller, n, limit)?;
    Ok(session_opened::opened(n, limit))
}
