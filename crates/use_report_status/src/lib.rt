// A seat's status, the end of its line (01, "The board report").
#![tactic(auto)]

ghost use Rattle.std.specs.Prelude.{◌++◌};
ghost use Rattle.model_report.specs.Report.{newline, status_words};
ghost use Rattle.use_text.specs.Page.{Put};

use model::{Phase, Process};
use use_text::Page;

// ".. one of "out", "working ROUND VALUE", "spent VALUE", "crashed" or "decided VALUE"", and the line's end.
#[tactic(auto, using(use_text::specs::Page::same, use_report_laws::specs::Cases::status_working))]
pub fn put_status(page: &mut Page, q: Process)
    ensures { Put page.old (status_words q.phase q.round q.estimate ++ newline) page.new }
{
    let round = q.round;
    let value = q.estimate as usize;
    match q.phase {
        Phase::Idle => page.put_words(b" out\n"),
        Phase::Exhausted => page.put_line(b" spent", &[value]),
        Phase::Crashed => page.put_words(b" crashed\n"),
        Phase::Decided => page.put_line(b" decided", &[value]),
        _ => page.put_line(b" working", &[round, value]),
    }
}
