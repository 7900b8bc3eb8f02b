// The refusals of a proposal and of a crash by the process' phase: functions of one record. They change nothing.
// (`session_refusal` has the tests before them.)
#![tactic(auto)]

ghost use Rattle.std.specs.Prelude.{◌≡◌};
ghost use Rattle.model.specs.Answers.{code};
ghost use Rattle.model.specs.Refusal.{refusal, propose_tests, crash_tests};

use model::{Phase, Refusal, Status};

// 01, "Numbers returned", proposal, after the process' number: 5, 6; 02, wish 10: 18, "tested last, after 6".
pub fn propose_refusal(closed: bool, v: u32, phase: Phase) -> Result<(), Refusal>
    ensures { code result ≡ refusal (propose_tests closed phase v) }
{
    if v == 0 {
        return Err(Refusal::BlankProposal);
    }
    let Status::Outside = part_status::status(phase) else {
        return Err(Refusal::SecondProposal);
    };
    if closed {
        return Err(Refusal::ClosedToProposals);
    }
    Ok(())
}

// 01, "Numbers returned", crash, after the process' number: 7, 8.
pub fn crash_refusal(phase: Phase) -> Result<(), Refusal>
    ensures { code result ≡ refusal (crash_tests phase) }
{
    match part_status::status(phase) {
        Status::Outside => Err(Refusal::ProcessOut), // a crash before the proposal
        Status::Gone => Err(Refusal::ProcessGone), // a crash after the end
        Status::Active | Status::Spent => Ok(()),
    }
}
