// A sheet run under a budget (01, "Turn sheets": the runner), and the standing values of the session that it leaves. Standard input: a byte
// that names the caller (02, wish 9), 0 the server and any other the cart, the budget, 32 bits, and the buffer's places, 16 bits, low byte
// first, and then the sheet. Standard output, two lines: the C entry's number, the entries carried out, and the reads, the writes and the
// contested writes; then the read-out's number, its count, and the numbers in the buffer's places after it.
#![tactic(auto)]

ghost use Rattle.std.specs.Prelude.{◌≡◌};
ghost use Rattle.model.specs.Answers.{told_run};
ghost use Rattle.model.specs.Export.{ending_code};

use model::{Counts, Refusal, Run, code};
use std::io::Print;

// "0 for finished, 100 for budget ended, or the refusal."
fn ending(ran: &Result<Run, Refusal>) -> u32
    ensures { result ≡ ending_code (told_run ran.now).ending }
{
    match ran {
        Ok(run) => run.ended.number(),
        Err(refusal) => refusal.number(),
    }
}

// A line with the number of the read-out, its count and the numbers in the buffer.
fn print_standing(rt: &impl Print, standing: Result<usize, Refusal>, buffer: &[u32]) {
    let _ = print!(rt; "{} {}", code(&standing), standing.unwrap_or(0));
    for number in buffer {
        let _ = print!(rt; " {number}");
    }
    let _ = println!(rt);
}

// The sheet run as the first seven bytes of the input say, and its two lines. What cannot be written is lost, here and above: a test
// compares what was.
fn print_run(rt: &impl Print, told: [u8; 7], sheet: &[u8]) {
    let [caller, a, b, c, d, low, high] = told;
    let caller = test_caller_byte::caller_of(caller);
    let budget = u32::from_le_bytes([a, b, c, d]) as usize;
    let places = u16::from_le_bytes([low, high]) as usize;
    let ran = sheet_run::run(caller, sheet, budget);
    let (carried, counts) = match ran {
        Ok(run) => (run.carried, run.counts),
        Err(_) => (0, Counts::default()),
    };
    let _ = println!(rt;
        "{} {carried} {} {} {}",
        ending(&ran),
        counts.reads,
        counts.writes,
        counts.contested
    );
    // So many places are lent of a buffer full of one number, which shows the places left alone.
    let mut buffer = [u32::MAX; 256];
    let lent = &mut buffer[..places.min(256)];
    // A refused sheet makes no session: the read-out is given the one of no process and no round.
    let left = match ran {
        Ok(run) => run.session,
        Err(_) => session_opened::opened(0, 0),
    };
    let standing = session_values::standing_values(left, lent);
    print_standing(rt, standing, lent);
}

fn main(rt: HostRuntime) {
    let mut told = [0u8; 7];
    let Ok(_) = use_input::read(&rt, b"test_run", &mut told) else {
        return;
    };
    // A sheet of 65,535 bytes is the longest; one more that is read shows that it is longer.
    let mut sheet = [0u8; 65536];
    let Ok(n) = use_input::read(&rt, b"test_run", &mut sheet) else {
        return;
    };
    print_run(&rt, told, &sheet[..n]);
}
