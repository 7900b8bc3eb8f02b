// The refusals of a look and of a step by the process' phase and the counts: functions of one record. They change nothing.
// (`session_refusal` has the tests before them.)
#![tactic(auto)]

ghost use Rattle.std.specs.Prelude.{◌≡◌, [], ◌∷◌};
ghost use Rattle.model.specs.Answers.{code};
ghost use Rattle.model.specs.Refusal.{full as full_of, refusal, learn_tests, step_tests};

use model::{Counts, Phase, Refusal, Status};

// 01, "Numbers returned", 16.
fn full_refusal(c: Counts) -> Result<(), Refusal>
    ensures { code result ≡ refusal ((full_of c, 16) ∷ []) }
{
    if part_counts::full(c) {
        Err(Refusal::CountsFull)
    } else {
        Ok(())
    }
}

// 01, "Numbers returned", look, after the process' number: 7, 8, 16.
pub fn learn_refusal(phase: Phase, c: Counts) -> Result<(), Refusal>
    ensures { code result ≡ refusal (learn_tests phase c) }
{
    match part_status::status(phase) {
        Status::Outside => Err(Refusal::ProcessOut), // a look before the proposal
        Status::Gone => Err(Refusal::ProcessGone), // a look after the end
        Status::Active | Status::Spent => full_refusal(c),
    }
}

// 01, "Numbers returned", work, after the process' number: 7, 8, 9, 16.
pub fn step_refusal(phase: Phase, c: Counts) -> Result<(), Refusal>
    ensures { code result ≡ refusal (step_tests phase c) }
{
    match part_status::status(phase) {
        Status::Outside => Err(Refusal::ProcessOut), // a step before the proposal
        Status::Gone => Err(Refusal::ProcessGone), // a step after the end
        Status::Spent => Err(Refusal::ProcessSpent),
        Status::Active => full_refusal(c),
    }
}
