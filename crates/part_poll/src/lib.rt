// What is different in a turn of a poll (02, wish 6), as functions of one process' record.
#![tactic(auto)]

ghost use Rattle.std.specs.Prelude.{◌≡◌, cond};
ghost use Rattle.model_poll.specs.Turn.{without_decision as without_decision_of, poll_access, is_waiting, ending as ending_of, poll_next, answer_of};

use model::{Access, Phase, Process};
use model_poll::Answer;

// 02, wish 6: its turn at commit "writes no D".
#[tactic(auto, unfolding(model_poll::specs::Turn::without_decision))]
fn without_decision(a: Access) -> Access
    ensures { result ≡ without_decision_of a }
{
    match a {
        Access::WriteDecision => Access::Nothing,
        _ => a,
    }
}

// The one register operation of a turn: that of a session's with hint yes.
#[tactic(auto, unfolding(model_poll::specs::Turn::without_decision, model_poll::specs::Turn::poll_access))]
pub fn access(limit: usize, q: Process) -> Access
    ensures { result ≡ poll_access limit q }
{
    without_decision(part_access::access(limit, q, true))
}

// 02, wish 6: "where a check of that round fails it answers adopted with its value". In a session it would go back to gate.
fn failed(left: Phase) -> Phase
    ensures { result ≡ cond (is_waiting left) Phase.HasAdopted left }
{
    match left {
        Phase::Waiting => Phase::HasAdopted,
        _ => left,
    }
}

// The phase after a turn, by the phase before it and the one that a session's turn leaves. 02, wish 6: "its turn at commit answers
// committed".
#[tactic(auto, unfolding(model_poll::specs::Turn::ending))]
fn ending(before: Phase, left: Phase) -> Phase
    ensures { result ≡ ending_of before left }
{
    match before {
        Phase::CheckMark(_) | Phase::CheckValue(_) => failed(left),
        Phase::Commit => Phase::HasCommitted,
        _ => left,
    }
}

// What a process becomes by a turn that read x.
#[tactic(auto, unfolding(model_poll::specs::Turn::poll_next))]
pub fn next(window: usize, limit: usize, q: Process, x: u32) -> Process
    ensures { result ≡ poll_next window limit q x }
{
    let left = part_next::next(window, limit, q, true, x);
    Process {
        phase: ending(q.phase, left.phase),
        ..left
    }
}

// 02, wish 6: the answer that a record holds, "committed with its value", "adopted with its value"; none yet in every other phase.
#[tactic(auto, unfolding(model_poll::specs::Turn::answer_of))]
pub fn answer(q: Process) -> Answer
    ensures { result ≡ answer_of q }
{
    match q.phase {
        Phase::HasCommitted => Answer::Commits(q.estimate),
        Phase::HasAdopted => Answer::Adopts(q.estimate),
        _ => Answer::Pending,
    }
}
