// The one register operation of a step, as a function of one process' record.
#![tactic(auto)]

ghost use Rattle.std.specs.Prelude.{◌≡◌};
ghost use Rattle.model.specs.Step.{access as access_of, phase_access};

use model::{Access, Phase, Process};

// 01, "One turn at a time", gate: a process that is told to lead reads the register of the next round, if there is one. The limit is read
// first, as in 02, wish 5; where no round is left, no register is read, whatever the hint.
#[tactic(auto, unfolding(model::specs::Step::waiting_rule, model::specs::Step::phase_access))]
fn waiting_access(limit: usize, round: usize, leader: bool) -> Access
    ensures { result ≡ phase_access limit round Phase.Waiting leader }
{
    if round < limit && leader {
        Access::ReadValue(round + 1)
    } else {
        Access::Nothing
    }
}

// 01, "One turn at a time": the one register operation of a work turn.
#[tactic(auto, unfolding(model::specs::Step::access, model::specs::Step::phase_access))]
pub fn access(limit: usize, q: Process, leader: bool) -> Access
    ensures { result ≡ access_of limit q leader }
{
    let Process { phase, round, .. } = q;
    match phase {
        Phase::Waiting => waiting_access(limit, round, leader),
        Phase::Write => Access::WriteValue(round),
        Phase::Scan(k) | Phase::Adopt(k) => Access::ReadValue(k),
        Phase::Compare(i) | Phase::CheckValue(i) => Access::ReadValue(round.saturating_sub(i)),
        Phase::Flag(i) => Access::SetMark(round.saturating_sub(i)),
        Phase::CheckMark(i) => Access::ReadMark(round.saturating_sub(i)),
        Phase::Commit => Access::WriteDecision,
        Phase::Idle
        | Phase::Exhausted
        | Phase::Crashed
        | Phase::Decided
        | Phase::HasCommitted
        | Phase::HasAdopted => Access::Nothing,
    }
}
