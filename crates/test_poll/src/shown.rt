// The words for an answer and for a seat.
use model::{Phase, Process};
use model_poll::Answer;
use std::fmt;

// What a turn gives its process.
#[derive(Clone, Copy)]
pub(crate) struct Reply(pub(crate) Answer);

impl fmt::Display for Reply {
    fn fmt<W: fmt::Write>(&self, f: &mut fmt::Formatter<W>) -> fmt::Result {
        match self.0 {
            Answer::Pending => write!(f, "none"),
            Answer::Commits(v) => write!(f, "committed {v}"),
            Answer::Adopts(v) => write!(f, "adopted {v}"),
        }
    }
}

// What a seat's record shows.
#[derive(Clone, Copy)]
pub(crate) struct Seat(pub(crate) Process);

impl fmt::Display for Seat {
    fn fmt<W: fmt::Write>(&self, f: &mut fmt::Formatter<W>) -> fmt::Result {
        let q = self.0;
        match q.phase {
            Phase::Idle => write!(f, "out"),
            Phase::Crashed => write!(f, "crashed"),
            Phase::HasCommitted | Phase::HasAdopted => Reply(part_poll::answer(q)).fmt(f),
            _ => write!(f, "working {} {}", q.round, q.estimate),
        }
    }
}
