// The tests that come before an operation's own. They change nothing.
#![tactic(auto)]

ghost use Rattle.std.specs.Prelude.{◌≡◌, cond, not, leb};
ghost use Rattle.model.specs.Answers.{code};
ghost use Rattle.model.specs.Numbers.{unsound, no_such_process};

use model::Refusal;

// 01, "Numbers returned": 3 for a session that is not sound, 4 for a process number n or above, then what the operation's own tests give.
// Kept: each of nine operations takes the record and makes its own tests before it calls this. One function for all of them would take
// those tests as a closure, so it would be public and need a `requires`, which no public function of this project has.
pub fn first_refusal(
    sound: bool,
    n: usize,
    p: usize,
    own: Result<(), Refusal>,
) -> Result<(), Refusal>
    ensures { code result ≡ cond (not sound) unsound (cond (leb n p) no_such_process (code own)) }
{
    if !sound {
        return Err(Refusal::Unsound);
    }
    if n <= p {
        return Err(Refusal::NoSuchProcess);
    }
    own
}

// The same of numbers: what the operation's own tests give is any number, 0 where none refuses.
pub fn first_refusal_number(sound: bool, n: usize, p: usize, own: u32) -> u32
    ensures { result ≡ cond (not sound) unsound (cond (leb n p) no_such_process own) }
{
    match first_refusal(sound, n, p, Ok(())) {
        Ok(()) => own,
        Err(refusal) => refusal.number(),
    }
}
