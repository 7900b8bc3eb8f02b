// The functions for callers in C, which include/janus.h declares: the runner (01, "Turn sheets", last paragraph) with a sheet, a
// budget and a buffer of exactly 256 bytes, the board report, and the sheet writer (02, wish 3).
#![tactic(auto)]

ghost use Rattle.std.specs.Prelude.{◌≡◌};
ghost use Rattle.model.specs.declared.Caller.TheVariants.{Server};
ghost use Rattle.model.specs.Answers.{told_run};
ghost use Rattle.model.specs.Runner.{run as run_of};
ghost use Rattle.model.specs.Export.{export_code, export_buffer};
ghost use Rattle.model_report.specs.ReportExport.{report_code, report_buffer};
ghost use Rattle.model_write.specs.WriteExport.{export_of, write_export};

use model::{Caller, Refusal, Run, code};

// The run of a sheet, called by both entries: so that the loop stands once in the archive, and the functions that only it calls stand in
// it. 02, wish 9: "the C entry and the report use the server's" limits.
fn run(sheet: &[u8], budget: usize) -> Result<Run, Refusal>
    ensures { told_run result ≡ run_of Server sheet.now budget }
{
    sheet_run::run(Caller::Server, sheet, budget)
}

// Runs a sheet. 15 is tested first; then 0 for finished, 100 for budget ended, or the refusal's number. Where no session was made the
// buffer is as it was.
#[unsafe(no_mangle)]
#[tactic(auto, using(base::specs::Arrays::length_mapped, janus_decided::specs::Bytes::length_bytes), unfolding(model::specs::Export::export_code, model::specs::Export::export_buffer))]
pub extern "C" fn janus_run(sheet: &[u8], budget: usize, buffer: &mut [u8]) -> u32
    ensures code { result ≡ export_code sheet.now budget buffer.old }
    ensures writes { buffer.new ≡ export_buffer sheet.now budget buffer.old }
{
    if buffer.len() != 256 {
        return Refusal::BadBuffer.number();
    }
    match run(sheet, budget) {
        Err(refusal) => refusal.number(),
        Ok(ran) => {
            janus_decided::put_decided(ran.session, buffer);
            ran.ended.number()
        }
    }
}

// Runs a sheet and writes the board report's text to the buffer, from its first byte on: the text's size, which is 16 or more; or 15 and
// nothing changed, where the buffer is shorter than the text.
#[unsafe(no_mangle)]
#[tactic(auto, using(use_report_laws::specs::Whole::report_of_run), unfolding(model_report::specs::ReportExport::report_code, model_report::specs::ReportExport::report_buffer))]
pub extern "C" fn janus_report(sheet: &[u8], buffer: &mut [u8]) -> usize
    ensures code { result ≡ report_code sheet.now buffer.old }
    ensures writes { buffer.new ≡ report_buffer sheet.now buffer.old }
{
    janus_report::size_or_number(janus_report::put_report(&run(sheet, 10921), buffer))
}

// Writes a sheet of the entries, cut into runs of the given lengths in entries, to the lent buffer: 0, and its size to the lent number; or
// the refusal's number and nothing changed.
#[unsafe(no_mangle)]
// Kept: a number, which is what C gets.
pub extern "C" fn janus_write(
    n: usize,
    limit: usize,
    entries: &[u8],
    lengths: &[usize],
    sheet: &mut [u8],
    size: &mut usize,
) -> u32
    ensures { export_of result sheet.new size.new
        ≡ write_export Server n limit entries.now lengths.now sheet.old size.old }
{
    code(&janus_written::write(Caller::Server, n, limit, entries, lengths, sheet, size))
}
