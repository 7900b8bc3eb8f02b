// What a process becomes by a step, as a function of its record and the one value read.
#![tactic(auto)]

ghost use Rattle.std.specs.Prelude.{◌≡◌, true, cond, ◌+◌, ◌-◌, min, ltb, eqb};
ghost use Rattle.model.specs.Step.{process as process_of, phase_next, next as next_of, go_on as go_on_of};

use model::{Phase, Process};

// The record in another phase, with its round and its estimate.
fn in_phase(q: Process, phase: Phase) -> Process
    ensures { result ≡ process_of phase q.round q.estimate }
{
    Process { phase, ..q }
}

// 01, "One turn at a time", gate and seek: past the filled register of round k, to the next one or, at the last, to adopt it.
fn upward(limit: usize, k: usize) -> Phase
    ensures { result ≡ cond (ltb k limit) (Phase.Scan (k + 1)) (Phase.Adopt limit) }
{
    if k < limit {
        Phase::Scan(k + 1)
    } else {
        Phase::Adopt(limit)
    }
}

// 01, "One turn at a time", gate, in the order of 02, wish 5: "The round limit is read first from now on." The tests stand as in
// `part_access::waiting_access`: the compiler then makes one branch of the tests of both functions. (The window, here 0, plays no part.)
#[tactic(auto, unfolding(model::specs::Step::waiting_rule, model::specs::Step::phase_next))]
fn waiting(limit: usize, q: Process, leader: bool, x: u32) -> Process
    ensures { result ≡ phase_next 0 limit q.round q.estimate Phase.Waiting leader x }
{
    let left = q.round < limit;
    if left && leader {
        let round = q.round + 1;
        let phase = if x == 0 {
            Phase::Write
        } else {
            upward(limit, round)
        };
        return Process { phase, round, ..q };
    }
    if left { // hint no
        return in_phase(q, Phase::Waiting);
    }
    in_phase(q, Phase::Exhausted)
}

// 01, "One turn at a time", seek k: `blank` says whether the register of round k is blank.
fn scan(limit: usize, k: usize, blank: bool) -> Phase
    ensures { result ≡ cond blank (Phase.Adopt (k - 1)) (cond (ltb k limit) (Phase.Scan (k + 1)) (Phase.Adopt limit)) }
{
    if blank {
        Phase::Adopt(k.saturating_sub(1))
    } else {
        upward(limit, k)
    }
}

// Whether i + 1 is below n. The sum is made only where i is below n, so it fits.
fn more(i: usize, n: usize) -> bool
    ensures { result ≡ ltb (i + 1) n }
{
    i < n && i + 1 < n
}

// 01, "One turn at a time", "Go on".
#[tactic(auto, unfolding(model::specs::Step::go_on))]
fn go_on(window: usize, round: usize, i: usize) -> Phase
    ensures { result ≡ go_on_of window round i }
{
    if more(i, round.min(window)) {
        Phase::Compare(i + 1)
    } else if window <= round {
        Phase::CheckMark(0)
    } else {
        Phase::Waiting
    }
}

// 01, "One turn at a time", compare i: `equal` says whether the register holds the estimate.
fn compare(window: usize, round: usize, i: usize, equal: bool) -> Phase
    ensures { result ≡ cond equal (go_on_of window round i) (Phase.Flag i) }
{
    if equal {
        go_on(window, round, i)
    } else {
        Phase::Flag(i)
    }
}

// 01, "One turn at a time", check-mark i.
fn check_mark(i: usize, unmarked: bool) -> Phase
    ensures { result ≡ cond unmarked (Phase.CheckValue i) Phase.Waiting }
{
    if unmarked {
        Phase::CheckValue(i)
    } else {
        Phase::Waiting
    }
}

// 01, "One turn at a time", check-value i: `equal` says whether the register still holds the estimate.
fn check_value(window: usize, i: usize, equal: bool) -> Phase
    ensures { result ≡ cond equal (cond (ltb (i + 1) window) (Phase.CheckMark (i + 1)) Phase.Commit) Phase.Waiting }
{
    if equal {
        if more(i, window) {
            Phase::CheckMark(i + 1)
        } else {
            Phase::Commit
        }
    } else {
        Phase::Waiting
    }
}

// 01, "One turn at a time", take k: a blank leaves the estimate.
fn adopted(q: Process, k: usize, x: u32) -> Process
    ensures { result ≡ process_of (Phase.Compare 0) k (cond (eqb x 0) q.estimate x) }
{
    Process {
        phase: Phase::Compare(0),
        round: k,
        estimate: if x == 0 { q.estimate } else { x },
    }
}

// 01, "One turn at a time": what a process becomes by a work turn that read x. (No arm hands q on whole: its padding would be copied.)
#[tactic(auto, unfolding(model::specs::Step::next, model::specs::Step::phase_next))]
pub fn next(window: usize, limit: usize, q: Process, leader: bool, x: u32) -> Process
    ensures { result ≡ next_of window limit q leader x }
{
    let Process {
        phase,
        round,
        estimate,
    } = q;
    match phase {
        Phase::Waiting => waiting(limit, q, leader, x),
        Phase::Write => in_phase(q, Phase::Compare(0)),
        Phase::Scan(k) => in_phase(q, scan(limit, k, x == 0)),
        Phase::Adopt(k) => adopted(q, k, x),
        Phase::Compare(i) => in_phase(q, compare(window, round, i, x == estimate)),
        Phase::Flag(i) => in_phase(q, go_on(window, round, i)),
        Phase::CheckMark(i) => in_phase(q, check_mark(i, x == 0)),
        Phase::CheckValue(i) => in_phase(q, check_value(window, i, x == estimate)),
        Phase::Commit => in_phase(q, Phase::Waiting),
        // Kept: an arm for each phase that stays, not one that hands `phase` on, which was slower by one part in twenty (measured): more than
        // an entry took before.
        Phase::Idle => in_phase(q, Phase::Idle),
        Phase::Exhausted => in_phase(q, Phase::Exhausted),
        Phase::Crashed => in_phase(q, Phase::Crashed),
        Phase::Decided => in_phase(q, Phase::Decided),
        Phase::HasCommitted => in_phase(q, Phase::HasCommitted),
        Phase::HasAdopted => in_phase(q, Phase::HasAdopted),
    }
}
