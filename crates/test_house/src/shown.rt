// What is printed of a house as it was left, whatever it holds. reference/src/houses.rs lists the lines.
use model::{After, Phase, Process, Session};
use model_house::{House, Place, Stance};
use std::fmt;
use std::io::Print;

// A stance or a phase in the words of these lines.
#[derive(Clone, Copy)]
struct Words<T>(T);

impl fmt::Display for Words<Place> {
    fn fmt<W: fmt::Write>(&self, f: &mut fmt::Formatter<W>) -> fmt::Result {
        f.write_str(match self.0 {
            Place::ProposeWard => "propose-ward",
            Place::StepWard => "work",
            Place::LearnWard => "look",
            Place::WriteTable => "write-table",
            Place::ProposePoll => "propose-poll",
            Place::StepPoll => "poll",
            Place::ReadTable => "read-table",
            Place::WriteHouse => "write-house",
        })
    }
}

impl fmt::Display for Words<Stance> {
    fn fmt<W: fmt::Write>(&self, f: &mut fmt::Formatter<W>) -> fmt::Result {
        match self.0 {
            Stance::Idle => f.write_str("out"),
            Stance::Working(place) => Words(place).fmt(f),
            Stance::Exhausted => f.write_str("spent"),
            Stance::Crashed => f.write_str("crashed"),
            Stance::Decided => f.write_str("decided"),
        }
    }
}

// With the phase's number, 0 where it has none.
impl fmt::Display for Words<Phase> {
    fn fmt<W: fmt::Write>(&self, f: &mut fmt::Formatter<W>) -> fmt::Result {
        let (word, k) = match self.0 {
            Phase::Idle => ("out", 0),
            Phase::Waiting => ("gate", 0),
            Phase::Write => ("put", 0),
            Phase::Scan(k) => ("seek", k),
            Phase::Adopt(k) => ("take", k),
            Phase::Compare(i) => ("compare", i),
            Phase::Flag(i) => ("flag", i),
            Phase::CheckMark(i) => ("check-mark", i),
            Phase::CheckValue(i) => ("check-value", i),
            Phase::Commit => ("commit", 0),
            Phase::Exhausted => ("spent", 0),
            Phase::Crashed => ("crashed", 0),
            Phase::Decided => ("decided", 0),
            Phase::HasCommitted => ("committed", 0),
            Phase::HasAdopted => ("adopted", 0),
        };
        write!(f, "{word} {k}")
    }
}

fn print_table(rt: &impl Print, table: &[[u32; 4]; 8]) {
    for (o, row) in table.iter().enumerate() {
        let [a, b, c, d] = *row;
        let _ = println!(rt; "row {} {a} {b} {c} {d}", o + 1);
    }
}

fn print_workers(rt: &impl Print, house: &House) {
    for (p, q) in house.workers.iter().enumerate().take(house.n) {
        let _ = println!(rt; "worker {p} {} {} {}", Words(q.stance), q.outer, q.value);
    }
}

// Whether a seat is as opened.
fn is_out(q: &Process) -> bool {
    *q == Process::default()
}

// Whether a session or a poll is as opened.
fn as_opened(board: &Session) -> bool {
    *board == session_opened::opened(board.n, board.limit)
}

fn print_rounds(rt: &impl Print, board: &Session) {
    for (r, (value, marked)) in board.values.iter().zip(board.marks.iter()).enumerate() {
        if *value != 0 || *marked {
            let mark = if *marked { "marked" } else { "unmarked" };
            let _ = println!(rt; "round {} {value} {mark}", r + 1);
        }
    }
}

fn print_seats(rt: &impl Print, board: &Session) {
    for (p, q) in board.processes.iter().enumerate() {
        if !is_out(q) {
            let _ = println!(rt; "seat {p} {} {} {}", Words(q.phase), q.round, q.estimate);
        }
    }
}

// The sessions are boards 0 to 31, the polls 32 to 39; those that are as opened are left out.
fn print_boards(rt: &impl Print, house: &House) {
    for (i, board) in house.sessions.iter().chain(house.polls.iter()).enumerate() {
        if !as_opened(board) {
            let state = if board.closed { "closed" } else { "open" };
            let _ = println!(rt;
                "board {i} {} {} {} {state}",
                board.n, board.limit, board.decision
            );
            print_rounds(rt, board);
            print_seats(rt, board);
        }
    }
}

pub(crate) fn end(rt: &impl Print, left: &After<House>) {
    let house = &left.state;
    let tally = left.counts;
    let _ = println!(rt;
        "tally {} {} {}",
        tally.reads, tally.writes, tally.contested
    );
    let _ = println!(rt; "decision {}", house.decision);
    print_table(rt, &house.table);
    print_workers(rt, house);
    print_boards(rt, house);
}
