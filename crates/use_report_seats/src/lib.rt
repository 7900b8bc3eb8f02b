// The lines of the seats (01, "The board report": "Seats 0 to n - 1 follow").
#![tactic(auto)]

ghost use Rattle.std.specs.Prelude.{take};
ghost use Rattle.model_report.specs.Report.{seat_lines};
ghost use Rattle.use_text.specs.Page.{Put};

use model::{Process, Session};
use use_report_status::put_status;
use use_text::Page;

// "Seats 0 to n - 1", "each as "seat", its number and" its status.
#[tactic(auto, using(use_text::specs::Page::nothing))]
pub fn put_seats(page: &mut Page, s: &Session)
    ensures { Put page.old (seat_lines 0 (take s.now.n s.now.processes)) page.new }
{
    let all: &[Process] = &s.processes;
    let seats = &all[..s.n.min(all.len())];
    for (p, q) in seats.iter().enumerate() {
        page.put_fields(b"seat", &[p]);
        put_status(page, *q);
    }
}
