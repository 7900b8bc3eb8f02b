// The data of a poll (document 02, wish 6), with no function: what the definitions in specs/ and every other crate speak of. A poll is an
// adopt-commit object: a `model::Session` whose round limit is its window, in which each process that walks its rounds to the end gets an
// answer. Its own data are the answers.
#![tactic(auto)]

use model::Session;

// What a turn gives its process (02, wish 6: it "answers committed with its value", it "answers adopted with its value").
// Kept: a case for none and no Option, since definitions and theorems speak of it (`answer_of`, `PollRule`).
#[derive(Clone, Copy)]
pub enum Answer {
    Pending, // none yet
    Commits(u32), // committed
    Adopts(u32), // adopted
}

// What an accepted turn leaves: the poll after it, and what the process got.
#[derive(Clone, Copy)]
pub struct Polled {
    pub session: Session,
    pub answer: Answer,
}
