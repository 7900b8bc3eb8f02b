// The lines of a report (01, "The board report"), put on a page.
#![tactic(auto)]

ghost use Rattle.std.specs.Prelude.{◌≡◌, ◌++◌, ◌≤◌, length, take};
ghost use Rattle.model.specs.Answers.{told_ended, told_ran, told_run};
ghost use Rattle.model_report.specs.Report.{newline, outcome_line, tally_line, closed_word, board_line, seat_lines, report_of};
ghost use Rattle.use_report_lines.specs.Numbered.{told_ending, told_numbered};
ghost use Rattle.use_text.specs.Page.{page_size, Put};

use model::{Counts, Ended, Process, Refusal, Run, Session};
use use_report_seats::put_seats;
use use_text::Page;

// How a run ended, or that its sheet was refused, with the number of the refusal.
// Kept: a number and no `Refusal`, since any number may stand for a refusal here, also one that no refusal has.
#[derive(Clone, Copy)]
pub enum Ending {
    Finished,
    Refused(u32, usize),
    BudgetEnded,
    Rejected(u32),
}

// A run with such an ending: how many entries were carried out, the session and the counts after them. Where the sheet was refused, these
// may be any, and the report has none of them.
#[derive(Clone, Copy)]
pub struct Ran {
    pub carried: usize,
    pub session: Session,
    pub counts: Counts,
    pub ending: Ending,
}

// The ending of a run, with the refusal's number.
fn numbered(ended: Ended) -> Ending
    ensures { told_ending result ≡ told_ended ended }
{
    match ended {
        Ended::Finished => Ending::Finished,
        Ended::Refused(refusal, index) => Ending::Refused(refusal.number(), index),
        Ended::BudgetEnded => Ending::BudgetEnded,
    }
}

// 01: "outcome refused CODE INDEX", "sheet refused CODE", "outcome finished" and "the number of entries carried out".
#[tactic(auto, using(use_text::specs::Page::same))]
fn put_outcome(page: &mut Page, ending: Ending, carried: usize)
    ensures { Put page.old (outcome_line (told_ending ending) carried) page.new }
{
    match ending {
        Ending::Refused(number, index) => page.put_line(
            b"outcome refused",
            &[number as usize, index],
        ),
        Ending::Rejected(number) => page.put_line(b"sheet refused", &[number as usize]),
        Ending::Finished | Ending::BudgetEnded => page.put_line(b"outcome finished", &[carried]),
    }
}

// "The tally line is reads, writes, contested".
fn put_tally(page: &mut Page, c: Counts)
    ensures { Put page.old (tally_line c) page.new }
{
    page.put_line(
        b"tally",
        &[c.reads as usize, c.writes as usize, c.contested as usize],
    );
}

// 02, wish 10: "The board line gains a third field, "open" or "closed"." With the line's end.
fn put_closed(page: &mut Page, closed: bool)
    ensures { Put page.old (closed_word closed ++ newline) page.new }
{
    if closed {
        page.put_words(b" closed\n")
    } else {
        page.put_words(b" open\n")
    }
}

// 01: "the board line is the highest filled round (0 for none) and D"; the third field is the closed mark.
fn put_board(page: &mut Page, s: &Session)
    ensures { Put page.old (board_line s.now) page.new }
{
    let top = use_report_highest::highest(&s.values);
    page.put_fields(b"board", &[top, s.decision as usize]);
    put_closed(page, s.closed);
}

// The lines behind the outcome, of a sheet that is not refused: the tally, the board and the seats.
fn put_more(page: &mut Page, s: &Session, c: Counts)
    ensures { Put page.old (tally_line c ++ board_line s.now ++ seat_lines 0 (take s.now.n s.now.processes)) page.new }
{
    put_tally(page, c);
    put_board(page, s);
    put_seats(page, s);
}

// The report of a run that is not refused: the outcome, the tally, the board and the seats.
fn put_run(page: &mut Page, run: &Run)
    ensures lines { Put page.old (report_of (told_ran run.now)) page.new }
    ensures fits { length (report_of (told_ran run.now)) ≤ page_size }
{
    put_outcome(page, numbered(run.ended), run.carried);
    put_more(page, &run.session, run.counts);
    // A session has 64 records, so the text fits.
    let records: &[Process] = &run.session.processes;
    prove!(records.len() == 64);
}

// The report of a run, which fits on a page. "A refused sheet gives only" its line.
// Kept: that it fits is said here and above, since a caller does not see that a run's session has 64 records (tried in `use_report_text`).
pub fn put_lines(page: &mut Page, ran: &Result<Run, Refusal>)
    ensures lines { Put page.old (report_of (told_run ran.now)) page.new }
    ensures fits { length (report_of (told_run ran.now)) ≤ page_size }
{
    match ran {
        Ok(run) => put_run(page, run),
        Err(refusal) => put_outcome(page, Ending::Rejected(refusal.number()), 0),
    }
}

// The same of a run with any numbers.
pub fn put_numbered(page: &mut Page, ran: &Ran)
    ensures lines { Put page.old (report_of (told_numbered ran.now)) page.new }
    ensures fits { length (report_of (told_numbered ran.now)) ≤ page_size }
{
    // A session has 64 records, so the text fits.
    let records: &[Process] = &ran.session.processes;
    prove!(records.len() == 64);
    put_outcome(page, ran.ending, ran.carried);
    match ran.ending {
        Ending::Rejected(_) => {}
        Ending::Finished | Ending::Refused(..) | Ending::BudgetEnded => {
            put_more(page, &ran.session, ran.counts)
        }
    }
}
