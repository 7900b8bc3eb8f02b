// What a process becomes by a proposal, a look and a crash, as functions of its record.
#![tactic(auto)]

ghost use Rattle.std.specs.Prelude.{◌≡◌};
ghost use Rattle.model.specs.Step.{process as process_of, learnt as learnt_of};

use model::{Phase, Process};

// 01, "One turn at a time": a proposal moves a seat from out to gate with own value v.
pub fn proposed(q: Process, v: u32) -> Process
    ensures { result ≡ process_of Phase.Waiting q.round v }
{
    Process {
        phase: Phase::Waiting,
        estimate: v,
        ..q
    }
}

// 01, "One turn at a time": a crash moves a working or spent seat to crashed; round and own value remain.
pub fn crashed(q: Process) -> Process
    ensures { result ≡ process_of Phase.Crashed q.round q.estimate }
{
    Process {
        phase: Phase::Crashed,
        ..q
    }
}

// 01, "One turn at a time": what a process becomes by a look that read x.
#[tactic(auto, unfolding(model::specs::Step::learnt))]
pub fn learnt(q: Process, x: u32) -> Process
    ensures { result ≡ learnt_of q x }
{
    if x == 0 {
        return q;
    }
    Process {
        phase: Phase::Decided,
        estimate: x,
        ..q
    }
}
