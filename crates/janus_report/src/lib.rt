// The board report (01, "The board report"), written to a lent buffer.
#![tactic(auto)]

ghost use Rattle.std.specs.Prelude.{◌≡◌, ◌≤◌, ◌-◌, ◌++◌, cond, length, replicate, take};
ghost use Rattle.model.specs.Answers.{code as code_of, told_run};
ghost use Rattle.model.specs.Numbers.{bad_buffer};
ghost use Rattle.model_report.specs.Report.{report_of};
ghost use Rattle.model_report.specs.ReportExport.{fits, text_code, text_buffer, told_size};
ghost use Rattle.use_report_lines.specs.Numbered.{told_numbered};
ghost use Rattle.use_text.specs.Page.{page_size, blank_page};

use model::{Refusal, Run};
use use_report_lines::{Ran, put_lines, put_numbered};
use use_text::Page;

// The report of a run, put on a blank page where it stands: by value, as `use_report_text` has it, it would take two pages more of a
// caller's stack.
fn put_text(page: &mut Page, ran: &Result<Run, Refusal>)
    requires { page.old ≡ blank_page }
    ensures len_value { (page.new.len ≡ length (report_of (told_run ran.now))) × (page.new.len ≤ page_size) }
    ensures bytes_value { page.new.bytes ≡ report_of (told_run ran.now) ++ replicate (page_size - page.new.len) 0 }
{
    put_lines(page, ran);
}

// The same of a run with any numbers.
fn put_text_numbered(page: &mut Page, ran: &Ran)
    requires { page.old ≡ blank_page }
    ensures len_value { (page.new.len ≡ length (report_of (told_numbered ran.now))) × (page.new.len ≤ page_size) }
    ensures bytes_value { page.new.bytes ≡ report_of (told_numbered ran.now) ++ replicate (page_size - page.new.len) 0 }
{
    put_numbered(page, ran);
}

// A page's text, written to the lent buffer from its first byte on; answers the text's size. 15 and nothing changed where the buffer is
// shorter than the text.
fn copy_text(page: &Page, buffer: &mut [u8]) -> Result<usize, Refusal>
    ensures accepted { code_of result ≡ cond (fits (take page.now.len page.now.bytes) buffer.old) 0 bad_buffer }
    ensures code { told_size result ≡ text_code (take page.now.len page.now.bytes) buffer.old }
    ensures writes { buffer.new ≡ text_buffer (take page.now.len page.now.bytes) buffer.old }
{
    let text = page.text();
    let size = text.len();
    if buffer.len() < size {
        return Err(Refusal::BadBuffer);
    }
    buffer[..size].copy_from_slice(text);
    Ok(size)
}

// The report's text of a run, written to the lent buffer from its first byte on; answers the text's size. 15 and nothing changed where the
// buffer is shorter than the text.
#[tactic(auto, using(crate::specs::Written::text_written))]
pub fn put_report(ran: &Result<Run, Refusal>, buffer: &mut [u8]) -> Result<usize, Refusal>
    ensures accepted { code_of result ≡ cond (fits (report_of (told_run ran.now)) buffer.old) 0 bad_buffer }
    ensures code { told_size result ≡ text_code (report_of (told_run ran.now)) buffer.old }
    ensures writes { buffer.new ≡ text_buffer (report_of (told_run ran.now)) buffer.old }
{
    let mut page = Page::blank();
    put_text(&mut page, ran);
    copy_text(&page, buffer)
}

// The same of a run with any numbers: any may stand for a refusal. Answers what C gets for it.
// Kept: a number for size and refusal, as below.
pub fn put_report_numbered(ran: &Ran, buffer: &mut [u8]) -> usize
    ensures code { result ≡ text_code (report_of (told_numbered ran.now)) buffer.old }
    ensures writes { buffer.new ≡ text_buffer (report_of (told_numbered ran.now)) buffer.old }
{
    let mut page = Page::blank();
    put_text_numbered(&mut page, ran);
    size_or_number(copy_text(&page, buffer))
}

// What C gets for it: the size, or the refusal's number.
// Kept: a number for either, since that is what C gets.
pub fn size_or_number(answer: Result<usize, Refusal>) -> usize
    ensures { result ≡ told_size answer }
{
    match answer {
        Ok(size) => size,
        Err(refusal) => refusal.number() as usize,
    }
}
