// The board report (document 01, "The board report"): the lines that are printed for a sheet, as bytes.
#![tactic(auto)]

ghost use Rattle.std.specs.Prelude.{◌≡◌, ◌-◌, ◌≤◌, ◌++◌, length, replicate};
ghost use Rattle.model.specs.Answers.{told_run};
ghost use Rattle.model_report.specs.Report.{report_of as report_for, report as sheet_report};
ghost use Rattle.use_report_lines.specs.Numbered.{told_numbered};
ghost use Rattle.use_text.specs.Page.{page_size};

use model::{Caller, Refusal, Run};
use use_report_lines::{Ran, put_lines, put_numbered};
use use_text::Page;

// The report of a run, on a page of its own, with zeros behind it. The longest fits.
pub fn report_of(ran: Result<Run, Refusal>) -> Page
    ensures len_value { (result.len ≡ length (report_for (told_run ran))) × (result.len ≤ page_size) }
    ensures bytes_value { result.bytes ≡ report_for (told_run ran) ++ replicate (page_size - result.len) 0 }
{
    let mut page = Page::blank();
    put_lines(&mut page, &ran);
    page
}

// The same of a run with any numbers: any may stand for a refusal.
pub fn report_numbered(ran: Ran) -> Page
    ensures len_value { (result.len ≡ length (report_for (told_numbered ran))) × (result.len ≤ page_size) }
    ensures bytes_value { result.bytes ≡ report_for (told_numbered ran) ++ replicate (page_size - result.len) 0 }
{
    let mut numbered = Page::blank();
    put_numbered(&mut numbered, &ran);
    numbered
}

// The report of a sheet that is run "with a budget of 10,921". 02, wish 9: "the C entry and the report use the server's" limits.
#[tactic(auto, using(use_report_laws::specs::Whole::report_of_run))]
pub fn report(sheet: &[u8]) -> Page
    ensures len_value { (result.len ≡ length (sheet_report sheet.now)) × (result.len ≤ page_size) }
    ensures bytes_value { result.bytes ≡ sheet_report sheet.now ++ replicate (page_size - result.len) 0 }
{
    report_of(sheet_run::run(Caller::Server, sheet, 10921))
}
