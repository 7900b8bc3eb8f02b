// The board report's program (01, "The board report"): one sheet from standard input, its lines to standard output. A program has no exit
// status: where it cannot read or write it says so on standard error. Where it cannot read it prints no report.
#![tactic(auto)]

use std::io::Print;

fn main(rt: HostRuntime) {
    // A sheet of 65,535 bytes is the longest; one more that is read shows that it is longer.
    let mut sheet = [0u8; 65536];
    let Ok(n) = use_input::read(&rt, b"report", &mut sheet) else {
        return;
    };
    let page = use_report_text::report(&sheet[..n]);
    if rt.write_all(page.text()).is_err() {
        let _ = eprintln!(rt; "report: standard output cannot be written");
    }
}
