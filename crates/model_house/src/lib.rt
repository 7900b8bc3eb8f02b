// The data of a house (document 02, wish 11: "Workers with ward names"), with no function: what the definitions in specs/ and every other
// crate speak of.
#![tactic(auto)]

use model::{Counts, Session};

// What a working worker does at its next turn: the places of one outer round, in their order.
#[derive(Clone, Copy)]
pub enum Place {
    ProposeWard, // "the first turn of an outer round only proposes to the ward"
    StepWard, // "a worker's turns alternate, work first"
    LearnWard, // "then a look at the ward's D"
    WriteTable, // "writes the decision to the table"
    ProposePoll, // "the turn after the table write only proposes to the poll"
    StepPoll, // "polls with its ward number"
    ReadTable, // "reads the table at the answer's ward"
    WriteHouse, // "committed, it then writes the house's own decision register"
}

// Where a worker stands (02's words are those of 01 for a seat).
#[derive(Clone, Copy)]
pub enum Stance {
    Idle, // out: has not proposed
    Working(Place), // working
    Exhausted, // spent
    Crashed, // crashed
    Decided, // decided, by a house look
}

// A worker's record: its stance, its outer round (1 to 8) and its value. (Its ward stands in the house.)
#[derive(Clone, Copy)]
pub struct Worker {
    pub stance: Stance,
    pub outer: usize,
    pub value: u32,
}

// "The value table has one row for each outer round and one entry per ward"; 0 is blank.
pub type Table = [[u32; 4]; 8];

// A house of n workers in c wards. wards[p] is the ward of worker p, 1 to c. The session of outer round o and ward w is
// sessions[8 * (w - 1) + o - 1], so that the first 8c are those of wards 1 to c; the poll of outer round o is polls[o - 1]. decision is
// "the house's own decision register"; 0 is blank.
// Kept: arrays beside each other, sessions by an index, and 0 for blank, since definitions and theorems speak of these fields so
// (`opened_house`, `sound_house`, `HouseRule`).
#[derive(Clone, Copy)]
pub struct House {
    pub n: usize,
    pub c: usize,
    pub wards: [u8; 16],
    pub workers: [Worker; 16],
    pub sessions: [Session; 32],
    pub polls: [Session; 8],
    pub table: Table,
    pub decision: u32,
}

// What one turn of a worker can read and change: the session of its outer round and ward, the poll of its outer round, the table, the
// house's decision register, its own record, and the counts.
#[derive(Clone, Copy)]
pub struct View {
    pub session: Session,
    pub poll: Session,
    pub table: Table,
    pub decision: u32,
    pub worker: Worker,
    pub counts: Counts,
}
