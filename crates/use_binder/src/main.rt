// The training binder's program (02, wish 12): every legal list of a length, in the words of examples/*.txt. Standard input: the seats and
// the length, a digit each, as "2 3". Standard output: the lists, or the number with which they are refused. A program has no exit status:
// where it cannot read, understand or write it says so on standard error.
#![tactic(auto)]

use std::io::{self, Print};
use text::Binder;

mod text;

// No length has more lists: theory_short has the 14 counts.
const MOST: usize = 9144;

// The number of a digit.
fn digit(byte: u8) -> Option<u8> {
    match byte {
        b'0'..=b'9' => Some(byte - b'0'),
        _ => None,
    }
}

// What the input asks for, the lists of so many seats and of a length: a digit, a space, a digit, and a newline or nothing.
fn asked_by(input: &[u8]) -> Option<(u8, u8)> {
    match input {
        [n, b' ', length] | [n, b' ', length, b'\n'] => Some((digit(*n)?, digit(*length)?)),
        _ => None,
    }
}

// The list in the buffer and all that follow it, then how many they are. It ends at the last list.
fn print_lists<P: Print>(
    binder: &mut Binder<'_, P>,
    n: usize,
    length: usize,
    list: &mut [u8],
) -> io::Result<()> {
    for number in 1..=MOST {
        binder.print_list(number, list)?;
        if sheet_short::next(n, length, list).is_err() {
            return binder.print_count(number);
        }
    }
    Ok(())
}

// The lists of a length with the lines above and below them, or the number with which they are refused.
fn print_binder<P: Print>(
    binder: &mut Binder<'_, P>,
    n: u8,
    length: usize,
    list: &mut [u8],
) -> io::Result<()> {
    let seats = n as usize;
    if let Err(refusal) = sheet_short::first(seats, length, list) {
        return binder.print_refused(refusal);
    }
    binder.print_head(seats, length, part_window::window(n))?;
    print_lists(binder, seats, length, list)
}

fn main(rt: HostRuntime) {
    // Two digits, a space and a newline are 4 bytes; one more that is read shows that the input is longer.
    let mut input = [0u8; 5];
    let Ok(size) = use_input::read(&rt, b"binder", &mut input) else {
        return;
    };
    let Some((n, told)) = asked_by(&input[..size]) else {
        let _ = eprintln!(rt;
            "binder: standard input must be the seats and the length, one digit each, as 2 3"
        );
        return;
    };
    let length = told as usize;
    // A length over 6 is refused with any buffer.
    let mut space = [0u8; 36];
    let list = &mut space[..6 * length.min(6)];
    if print_binder(&mut Binder::new(&rt), n, length, list).is_err() {
        let _ = eprintln!(rt; "binder: standard output cannot be written");
    }
}
