// The calls of both callers (02, wish 9) as an archive, for the tests beside the separate program: each function's first argument names the
// caller, 0 the server and any other the cart. (The library's own functions for callers in C use the server's limits: `janus`.)
#![tactic(auto)]

ghost use Rattle.std.specs.Prelude.{◌≡◌};
ghost use Rattle.model.specs.Machine.{opening};
ghost use Rattle.model.specs.Runner.{run as run_of};
ghost use Rattle.model_poll.specs.Machine.{poll_opening};
ghost use Rattle.model_report.specs.Report.{report_of};
ghost use Rattle.model_report.specs.ReportExport.{text_code, text_buffer};
ghost use Rattle.model_write.specs.WriteExport.{export_of, write_export};
ghost use Rattle.test_caller_byte.specs.Named.{caller_of as caller_for};

use model::code;
use test_caller_byte::caller_of;

// Opens a session: the number.
#[unsafe(no_mangle)]
pub extern "C" fn caller_open(caller: u8, n: usize, limit: usize) -> u32
    ensures { result ≡ (opening (caller_for caller) n limit).code }
{
    code(&session_open::open(caller_of(caller), n, limit))
}

// Opens a poll: the number.
#[unsafe(no_mangle)]
pub extern "C" fn caller_open_poll(caller: u8, n: usize) -> u32
    ensures { result ≡ (poll_opening (caller_for caller) n).code }
{
    code(&poll_open::open(caller_of(caller), n))
}

// Runs a sheet under a budget, and writes the report's text of that run to the buffer, as `janus_report` does.
#[unsafe(no_mangle)]
pub extern "C" fn caller_report(caller: u8, sheet: &[u8], budget: usize, buffer: &mut [u8]) -> usize
    ensures code { result ≡ text_code (report_of (run_of (caller_for caller) sheet.now budget)) buffer.old }
    ensures writes { buffer.new
        ≡ text_buffer (report_of (run_of (caller_for caller) sheet.now budget)) buffer.old }
{
    let ran = sheet_run::run(caller_of(caller), sheet, budget);
    janus_report::size_or_number(janus_report::put_report(&ran, buffer))
}

// Writes a sheet, as `janus_write` does.
#[unsafe(no_mangle)]
pub extern "C" fn caller_write(
    caller: u8,
    n: usize,
    limit: usize,
    entries: &[u8],
    lengths: &[usize],
    sheet: &mut [u8],
    size: &mut usize,
) -> u32
    ensures { export_of result sheet.new size.new
        ≡ write_export (caller_for caller) n limit entries.now lengths.now sheet.old size.old }
{
    code(&janus_written::write(caller_of(caller), n, limit, entries, lengths, sheet, size))
}
