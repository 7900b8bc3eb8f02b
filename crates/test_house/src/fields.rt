// Fields of a house and counts that are set to v, as only a test may do: so a house can be damaged. reference/src/houses.rs lists the
// kinds.
use model::{After, Phase, Process, Session};
use model_house::{House, Place, Stance};

// Kept: functions here and below, since an impl of From must stand beside the type, and the numbers are this test's own: no plainer.
fn stance_of(v: u32) -> Stance {
    match v {
        0 => Stance::Idle,
        1 => Stance::Working(Place::ProposeWard),
        2 => Stance::Working(Place::StepWard),
        3 => Stance::Working(Place::LearnWard),
        4 => Stance::Working(Place::WriteTable),
        5 => Stance::Working(Place::ProposePoll),
        6 => Stance::Working(Place::StepPoll),
        7 => Stance::Working(Place::ReadTable),
        8 => Stance::Working(Place::WriteHouse),
        9 => Stance::Exhausted,
        10 => Stance::Crashed,
        _ => Stance::Decided,
    }
}

fn session_phase(k: u8) -> Phase {
    match k {
        0 => Phase::Idle,
        1 => Phase::Waiting,
        2 => Phase::Exhausted,
        3 => Phase::Crashed,
        _ => Phase::Decided,
    }
}

fn poll_phase(k: u8) -> Phase {
    match k {
        0 => Phase::Idle,
        1 => Phase::Waiting,
        2 => Phase::Crashed,
        3 => Phase::HasCommitted,
        4 => Phase::HasAdopted,
        _ => Phase::Decided,
    }
}

// Of a session or a poll, whose phases are told by numbers of their own.
// Kept: a `match` on the kind, here and below: it comes from the input, and a closure for each would be no plainer.
fn set_board<F: Fn(u8) -> Phase>(board: &mut Session, kind: u8, v: u32, phase_of: F)
    requires { F.IsAlwaysCallable phase_of }
{
    let [estimate, round, phase, place] = v.to_le_bytes();
    match kind {
        134 | 139 => board.n = v as usize,
        135 | 140 => board.limit = v as usize,
        136 | 141 => board.closed = v != 0,
        137 | 142 => board.values[place as usize] = v % 16777216,
        138 | 143 => {
            board.processes[place as usize % 64] = Process {
                phase: phase_of(phase),
                round: round as usize,
                estimate: estimate as u32,
            };
        }
        _ => board.decision = v,
    }
}

pub(crate) fn set(left: &mut After<House>, kind: u8, a: usize, v: u32) {
    let house = &mut left.state;
    match kind {
        128 => house.n = v as usize,
        129 => house.c = v as usize,
        130 => house.wards[a % 16] = v.to_le_bytes()[0],
        131 => house.workers[a % 16].outer = v as usize,
        132 => house.workers[a % 16].value = v,
        133 => house.workers[a % 16].stance = stance_of(v),
        134..=138 | 149 => set_board(&mut house.sessions[a % 32], kind, v, session_phase),
        139..=143 | 150 => set_board(&mut house.polls[a % 8], kind, v, poll_phase),
        144 => house.table[a / 4 % 8][a % 4] = v,
        145 => house.decision = v,
        146 => left.counts.reads = v,
        147 => left.counts.writes = v,
        148 => left.counts.contested = v,
        _ => {}
    }
}
