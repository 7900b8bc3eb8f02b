// Where a search for a list stands.
ghost use Rattle.model_short_laws.specs.Machine.{SearchReady};

use model::{Counts, Session};

// In a session of n processes with these counts; so many entries are left, the first of them at an offset of the buffer.
// Kept: a place by two numbers and no slice, since laws speak of them (`SearchReady`, `legal_from`), and the buffer is lent beside it.
#[derive(Clone, Copy)]
pub struct Search {
    pub n: u8,
    pub left: usize,
    pub at: usize,
    pub session: Session,
    pub counts: Counts,
    pub ghost ready: { SearchReady n left at session },
}
