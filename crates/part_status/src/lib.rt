// Where a process stands, for the refusals by its phase: a function of one record.
#![tactic(auto)]

ghost use Rattle.std.specs.Prelude.{◌≡◌};
ghost use Rattle.model.specs.Refusal.{status as status_of};

use model::{Phase, Status};

// 01, "Numbers returned": whether the process is out, works, is spent, or crashed or decided; 02, wish 6: or answered.
pub fn status(phase: Phase) -> Status
    ensures { result ≡ status_of phase }
{
    match phase {
        Phase::Idle => Status::Outside,
        Phase::Waiting
        | Phase::Write
        | Phase::Scan(_)
        | Phase::Adopt(_)
        | Phase::Compare(_)
        | Phase::Flag(_)
        | Phase::CheckMark(_)
        | Phase::CheckValue(_)
        | Phase::Commit => Status::Active,
        Phase::Exhausted => Status::Spent,
        Phase::Crashed | Phase::Decided | Phase::HasCommitted | Phase::HasAdopted => Status::Gone,
    }
}
