// The operations on a poll that are those of a session, with a poll's soundness for 3 (02, wish 6: "Numbers 1, 3 to 8 and 16 in the
// sessions' order").
#![tactic(auto)]

ghost use Rattle.std.specs.Prelude.{◌≡◌};
ghost use Rattle.model.specs.Answers.{told, told_process};
ghost use Rattle.model_poll.specs.Public.{poll_propose, poll_crash, poll_record};

use model::{Process, Refusal, Session};

// Kept: beside the functions that take either, since theorems speak of these contracts (`poll_propose_contract`, `poll_crash_contract`), and
// docs/POLLS.md names the read-out.

// A proposal to a poll.
pub fn propose(s: Session, p: usize, v: u32) -> Result<Session, Refusal>
    ensures { told s result ≡ poll_propose s p v }
{
    session_propose::propose_as(true, s, p, v)
}

// A crash in a poll.
pub fn crash(s: Session, p: usize) -> Result<Session, Refusal>
    ensures { told s result ≡ poll_crash s p }
{
    session_crash::crash_as(true, s, p)
}

// 02, wish 6: "Seats are read out as in sessions". An answered process' record shows its answer: its phase and its estimate.
pub fn process_record(s: Session, p: usize) -> Result<Process, Refusal>
    ensures { told_process result ≡ poll_record s p }
{
    session_read_process::process_record_as(true, s, p)
}
