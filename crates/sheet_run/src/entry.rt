// What one operation does to the process that it names, as functions of that process's record, the tally and one value read.
ghost use Rattle.std.specs.Prelude.{◌≡◌, ◌||◌, leb};
ghost use Rattle.model.specs.Answers.{code, told_ended};
ghost use Rattle.model.specs.Machine.{process_of as process_for};
ghost use Rattle.model.specs.Numbers.{number};
ghost use Rattle.model.specs.Refusal.{refusal};
ghost use Rattle.model_laws.specs.Accepted.{own_tests};
ghost use Rattle.sheet_laws.specs.Entries.{becoming, halt_of, other_access};

use model::{Access, Counts, Ended, Operation, Process, Refusal};

// The process that the operation names.
pub(crate) fn process_of(o: Operation) -> usize
    ensures { result ≡ process_for o }
{
    match o {
        Operation::Propose(p, _)
        | Operation::Step(p, _)
        | Operation::Learn(p)
        | Operation::Crash(p) => p,
    }
}

// Whether an operation of process p is not tried: the budget has ended, or there is no such process.
pub(crate) fn halts(budget: usize, k: usize, n: usize, p: usize) -> bool
    ensures { result ≡ leb budget k || leb n p }
{
    (budget <= k) | (n <= p)
}

// How the run ends at an entry that is refused so. 01, "Turn sheets", of a budget that has ended: "that next one is not
// tried".
pub(crate) fn halt(budget: usize, k: usize, refusal: Refusal) -> Ended
    ensures { told_ended result ≡ halt_of budget k (number refusal) }
{
    if budget <= k {
        Ended::BudgetEnded
    } else {
        Ended::Refused(refusal, k)
    }
}

// Its own refusal, after the process' number, by the closed mark.
pub(crate) fn refusal_of(closed: bool, q: Process, c: Counts, o: Operation) -> Result<(), Refusal>
    ensures { code result ≡ refusal (own_tests closed q.phase c o) }
{
    match o {
        Operation::Propose(_, v) => part_refusals::propose_refusal(closed, v, q.phase),
        Operation::Step(..) => part_refusals_counted::step_refusal(q.phase, c),
        Operation::Learn(_) => part_refusals_counted::learn_refusal(q.phase, c),
        Operation::Crash(_) => part_refusals::crash_refusal(q.phase),
    }
}

// 01, "One turn at a time", proposal, look and crash: what the process becomes where it changes. A look at a blank D changes none, so that
// its record is not stored again. (The answer for a work turn, which has a path of its own, is not used.)
pub(crate) fn becomes(q: Process, decision: u32, o: Operation) -> Option<Process>
    ensures { result ≡ becoming q decision o }
{
    match o {
        Operation::Propose(_, v) => Some(part_moves::proposed(q, v)),
        Operation::Learn(_) if decision != 0 => Some(part_moves::learnt(q, decision)),
        Operation::Crash(_) => Some(part_moves::crashed(q)),
        Operation::Step(..) | Operation::Learn(_) => None,
    }
}

// The one register operation of one that is no work turn: a look reads D.
pub(crate) fn access_of(o: Operation) -> Access
    ensures { result ≡ other_access o }
{
    match o {
        Operation::Learn(_) => Access::ReadDecision,
        Operation::Propose(..) | Operation::Step(..) | Operation::Crash(_) => Access::Nothing,
    }
}
