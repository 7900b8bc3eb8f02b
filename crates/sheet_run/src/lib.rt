// Running a sheet (01, "Turn sheets": the runner). The session is changed where it stands, entry after entry, and is never
// tested for soundness: that every session of the run is sound is part of the loop's proof.
#![tactic(auto)]

ghost use Rattle.std.specs.Prelude.{◌≡◌};
ghost use Rattle.model.specs.Answers.{told_ended, told_ran, told_run};
ghost use Rattle.model.specs.Runner.{ran as ran_of, run_from, run as run_of};
ghost use Rattle.model.specs.Sheet.{entries};
ghost use Rattle.sheet_laws.specs.Carried.{Begun};

use model::{Caller, Counts, Ended, Entry, Operation, Refusal, Run, Session};
use part_registers::{mark, value};

mod entry;

// What a run gives: the number of entries carried out, the session, the tally and how it ended.
fn ran(carried: usize, session: Session, counts: Counts, ended: Ended) -> Run
    ensures { told_ran result ≡ ran_of carried session counts (told_ended ended) }
{
    Run {
        carried,
        session,
        counts,
        ended,
    }
}

// 01, "Turn sheets": the entries one after another, on a session just opened, up to the budget or the first refused entry.
// A close (02, wish 10) is an entry as the others are.
// Kept: one function of more than 40 lines, since parts of it as functions of their own were slower (docs/DECISIONS.md, 16), and entries
// counted by `k`, since the reader is the form that 01 names and no iterator (`sheet_reader_held`).
#[tactic(auto, using(sheet_laws::specs::PlaceLaws::begin_rest, sheet_laws::specs::PlaceLaws::begin_proper, sheet_laws::specs::Carried::ends, sheet_laws::specs::Carried::malformed, sheet_laws::specs::Carried::close_spent, sheet_laws::specs::Carried::row_past, sheet_laws::specs::Carried::fewer_left, sheet_laws::specs::Carried::halted))]
fn carry(sheet: &[u8], budget: usize, window: usize, mut s: Session, mut c: Counts) -> Run
    requires { Begun sheet.now window s }
    ensures { told_ran result ≡ run_from window budget 0 s c (entries sheet.now) }
{
    let mut k: usize = 0;
    let mut reader = sheet_reader_held::attach(sheet);
    while let Some(e) = sheet_reader_held::entry(reader) {
        match e {
            Entry::Acts(o) => {
                let p = entry::process_of(o);
                if entry::halts(budget, k, s.n, p) {
                    return ran(k, s, c, entry::halt(budget, k, Refusal::NoSuchProcess));
                }
                let q = s.processes[p];
                if let Operation::Step(_, leader) = o {
                    if let Err(refusal) = part_refusals_counted::step_refusal(q.phase, c) {
                        return ran(k, s, c, Ended::Refused(refusal, k));
                    }
                    let a = part_access::access(s.limit, q, leader);
                    let x = mark(value(&mut s.values, a, q.estimate), &mut s.marks, a);
                    s.decision = part_decision::decision(s.decision, a, q.estimate);
                    s.processes[p] = part_next::next(window, s.limit, q, leader, x);
                    c = part_counts::counted(a, x, c);
                } else {
                    if let Err(refusal) = entry::refusal_of(s.closed, q, c, o) {
                        return ran(k, s, c, Ended::Refused(refusal, k));
                    }
                    if let Some(moved) = entry::becomes(q, s.decision, o) {
                        s.processes[p] = moved;
                    }
                    c = part_counts::counted(entry::access_of(o), 0, c);
                }
            }
            Entry::Closes => {
                if budget <= k {
                    return ran(k, s, c, Ended::BudgetEnded);
                }
                s.closed = true;
            }
            Entry::Malformed => return ran(k, s, c, entry::halt(budget, k, Refusal::BadEntry)),
        }
        k += 1;
        reader = sheet_reader_held::moved(reader);
    }
    ran(k, s, c, Ended::Finished)
}

// 01, "Turn sheets": the runner, within the caller's limits (02, wish 9). A refused sheet makes no session.
#[tactic(auto, using(sheet_laws::specs::Carried::run_rejected, sheet_laws::specs::Carried::run_accepted))]
pub fn run(caller: Caller, sheet: &[u8], budget: usize) -> Result<Run, Refusal>
    ensures { told_run result ≡ run_of caller sheet.now budget }
{
    sheet_refusal::refusal(caller, sheet)?;
    let n = part_bytes::byte(sheet, 0);
    let limit = part_bytes::word16(sheet, 2) as usize;
    Ok(carry(
        sheet,
        budget,
        part_window::window(n),
        session_opened::opened(n as usize, limit),
        Counts::default(),
    ))
}
