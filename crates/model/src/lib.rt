// The data of a Janus session and the refusals: what the definitions in specs/ and every other crate speak of.
#![tactic(auto)]

ghost use Rattle.std.specs.Prelude.{◌≡◌};
ghost use Rattle.model.specs.Answers.{told_ended};
ghost use Rattle.model.specs.Export.{ending_code};

mod refusal;

pub use refusal::{Refusal, code};

// Where a process stands in its walk (document 01: the stance of a seat; 01's word for each is behind it).
// k is a round that it reads on the way up, i a distance below its own round.
#[derive(Clone, Copy, Default, PartialEq, Eq)]
pub enum Phase {
    #[default]
    Idle, // out: has not proposed
    Waiting, // gate: between two rounds, moves on when it is told to lead
    Write, // put: about to write its estimate to the register of its round
    Scan(usize), // seek k: looks for the first blank register
    Adopt(usize), // take k: about to adopt the value of register k
    Compare(usize), // compare i: compares register round - i with its estimate
    Flag(usize), // flag i: about to mark round - i as contested
    CheckMark(usize), // check-mark i: checks that round - i is unmarked
    CheckValue(usize), // check-value i: checks that register round - i still holds its estimate
    Commit, // commit: about to write its estimate to the decision register
    Exhausted, // spent: no round is left
    Crashed, // crashed
    Decided, // decided: its estimate is the decision that it read
    HasCommitted, // of a poll alone (02, wish 6): its one pass is over, and its answer was committed, with its estimate
    HasAdopted, // of a poll alone: its answer was adopted, with its estimate
}

// What the refusals know of a phase: not yet proposed (01: out), working (01: gate to commit), spent, or gone: crashed, decided or
// (02, wish 6) answered.
#[derive(Clone, Copy)]
pub enum Status {
    Outside,
    Active,
    Spent,
    Gone,
}

// One process (01: a seat's record): its phase, its round (0 before the first) and its estimate (01: the own value).
#[derive(Clone, Copy, Default, PartialEq, Eq)]
pub struct Process {
    pub phase: Phase,
    pub round: usize,
    pub estimate: u32,
}

// One agreement (01: a session, the board and the seats). The value register T[r] of round r is values[r - 1], the mark
// C[r] is marks[r - 1], the decision register D is decision; 0 is blank. n processes take part, in rounds 1 to limit (01: L).
// closed is the closed mark (02, wish 10): no proposal is accepted any more.
// Kept: two arrays beside each other, numbers beside arrays, and 0 for blank, since definitions and theorems speak of these fields so (`opened`,
// `sound_as`, `AgreementRule`).
#[derive(Clone, Copy, PartialEq, Eq)]
pub struct Session {
    pub n: usize,
    pub limit: usize,
    pub values: [u32; 256],
    pub marks: [bool; 256],
    pub decision: u32,
    pub processes: [Process; 64],
    pub closed: bool,
}

// Counts of register operations (01: the tally).
#[derive(Clone, Copy, Default)]
pub struct Counts {
    pub reads: u32,
    pub writes: u32,
    pub contested: u32,
}

// The one register operation of a turn, with the round of its register.
// Kept: a case for none and no Option, since definitions and laws speak of it (`access`, `counted`).
#[derive(Clone, Copy)]
pub enum Access {
    Nothing,
    ReadValue(usize),
    WriteValue(usize),
    ReadMark(usize),
    SetMark(usize),
    ReadDecision,
    WriteDecision,
}

// One operation of a process, with its number or hint (01: a proposal, a work turn, a look, a crash).
#[derive(Clone, Copy)]
pub enum Operation {
    Propose(usize, u32),
    Step(usize, bool),
    Learn(usize),
    Crash(usize),
}

// What the six bytes of a sheet's entry say: an operation, a close (02, wish 10), which names no process, or nothing that 01 and 02 know.
// Kept: a case for nothing and no Option, since definitions and theorems speak of it (`entry_of`, `is_malformed`).
#[derive(Clone, Copy)]
pub enum Entry {
    Acts(Operation),
    Closes,
    Malformed,
}

// Who calls (02, wish 9: "one pair for each of the two callers; a call names only which of the two it is"): the clinic's server, or the
// bedside cart.
#[derive(Clone, Copy)]
pub enum Caller {
    Server,
    Cart,
}

// The most processes and rounds that a caller's sessions may have.
#[derive(Clone, Copy)]
pub struct Limits {
    pub processes: u8,
    pub rounds: u16,
}

// What an accepted operation that counts its register operation leaves: the state after it, a session or (02, wishes 6 and 11) a poll with
// its answer or a house, and the counts after it. (One that counts nothing leaves the state alone.)
#[derive(Clone, Copy)]
pub struct After<T> {
    pub state: T,
    pub counts: Counts,
}

impl<T> After<T> {
    // The state; the counts go where they are lent (01: "The caller lends its tally, which a turn updates where it stands").
    pub fn store_counts(self, counts: &mut Counts) -> T
        ensures state { result ≡ self.state }
        ensures stores { counts.new ≡ self.counts }
    {
        *counts = self.counts;
        self.state
    }
}

// What the read-out of a round gives: T[r] and C[r].
#[derive(Clone, Copy)]
pub struct Register {
    pub value: u32,
    pub marked: bool,
}

// How the run of a sheet that is not refused ended (01: finished; the refusal and the entry's index; budget ended).
#[derive(Clone, Copy)]
pub enum Ended {
    Finished,
    Refused(Refusal, usize),
    BudgetEnded,
}

impl Ended {
    // What the clinic server gets: "0 for finished, 100 for budget ended, or the refusal".
    pub fn number(self) -> u32
        ensures { result ≡ ending_code (told_ended self) }
    {
        match self {
            Ended::Finished => 0,
            Ended::Refused(refusal, _) => refusal.number(),
            Ended::BudgetEnded => 100,
        }
    }
}

// What such a run gives: how many entries were carried out, the session and the counts after them, and how it ended.
#[derive(Clone, Copy)]
pub struct Run {
    pub carried: usize,
    pub session: Session,
    pub counts: Counts,
    pub ended: Ended,
}
