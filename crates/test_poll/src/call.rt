// The operations on a poll.
use model::{After, Refusal, Session};
use model_poll::Answer;
use std::fmt;

// One operation, with its seat.
#[derive(Clone, Copy)]
pub(crate) enum Call {
    Propose(u8, u32),
    Turn(u8),
    Crash(u8),
    CloseAsSession,
    ReadAsSession(u8),
}

impl From<[u8; 6]> for Call {
    fn from(entry: [u8; 6]) -> Call {
        let [kind, seat, a, b, c, d] = entry;
        // Kept: the kind is a byte of the input, which a `match` reads: no plainer in another form.
        match kind {
            0 => Call::Propose(seat, u32::from_le_bytes([a, b, c, d])),
            1 => Call::Turn(seat),
            2 => Call::Crash(seat),
            4 => Call::CloseAsSession,
            _ => Call::ReadAsSession(seat),
        }
    }
}

impl Call {
    // Carries the operation out on a poll and its tally; what a turn gives its process.
    pub(crate) fn carry_out(self, left: &mut After<Session>) -> Result<Answer, Refusal> {
        match self {
            Call::Propose(p, v) => {
                left.state = poll_change::propose(left.state, p as usize, v)?;
            }
            Call::Turn(p) => {
                let after = poll_turn::turn(left.state, p as usize, left.counts)?;
                left.state = after.state.session;
                left.counts = after.counts;
                return Ok(after.state.answer);
            }
            Call::Crash(p) => {
                left.state = poll_change::crash(left.state, p as usize)?;
            }
            // Polls have no close: a poll that was closed as a session is unsound.
            Call::CloseAsSession => {
                left.state = session_close::close(left.state)?;
            }
            // 3 where the poll is no sound session.
            Call::ReadAsSession(p) => {
                session_read_process::process_record(left.state, p as usize)?;
            }
        }
        Ok(Answer::Pending)
    }
}

impl fmt::Display for Call {
    fn fmt<W: fmt::Write>(&self, f: &mut fmt::Formatter<W>) -> fmt::Result {
        match self {
            Call::Propose(seat, value) => write!(f, "propose {seat} {value}"),
            Call::Turn(seat) => write!(f, "turn {seat}"),
            Call::Crash(seat) => write!(f, "crash {seat}"),
            Call::CloseAsSession => write!(f, "close"),
            Call::ReadAsSession(seat) => write!(f, "session {seat}"),
        }
    }
}
