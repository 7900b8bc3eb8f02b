// Polls (02, wish 6) run from a list of operations, and what each call answers. Standard input: polls one after another. Each is a byte
// that names the caller (02, wish 9), 0 the server and any other the cart; a byte, n; 16 bits, the number of its operations, low byte
// first; and its operations of six bytes, kind, seat and a number of 32 bits. Kinds: 0 proposal of the number, 1 turn, 2 crash, 4 the close
// of a session (02, wish 10), which polls have not; any other is the read-out of the seat's record as a session's. Each poll has a tally of
// its own. Standard output: a line for the opening and for each operation, with its refusal's number or 0 and a turn's answer; then the
// tally, the registers and the seats.
#![tactic(auto)]

ghost use Rattle.std.specs.Prelude.{◌<◌, length};

use call::Call;
use model::{After, Counts, Session, code};
use model_poll::Answer;
use shown::{Reply, Seat};
use std::io::Print;

mod call;
mod shown;

// One operation, and its line. What cannot be written is lost, here and below: a test compares what was.
fn operation(rt: &impl Print, call: Call, left: &mut After<Session>) {
    let answer = call.carry_out(left);
    let code = code(&answer);
    let _ = match call {
        Call::Turn(_) => {
            let reply = Reply(answer.unwrap_or(Answer::Pending));
            println!(rt; "{call} {code} {reply}")
        }
        _ => println!(rt; "{call} {code}"),
    };
}

// The registers of the rounds 1 to L.
fn print_rounds(rt: &impl Print, poll: &Session) {
    let registers = poll.values.iter().zip(poll.marks.iter());
    for (r, (value, marked)) in registers.take(poll.limit).enumerate() {
        let round = r + 1;
        let mark = if *marked { "marked" } else { "unmarked" };
        let _ = println!(rt; "round {round} {value} {mark}");
    }
}

// What the read-outs of the seats give.
fn print_seats(rt: &impl Print, poll: &Session) {
    for p in 0..poll.n {
        let _ = match poll_change::process_record(*poll, p) {
            Ok(process) => println!(rt; "seat {p} {}", Seat(process)),
            Err(refusal) => println!(rt; "seat {p} refused {}", refusal.number()),
        };
    }
}

// The operations, as far as the input has them whole; then the end.
fn operations(rt: &impl Print, calls: &[u8], opened: Session) {
    let mut left = After {
        state: opened,
        counts: Counts::default(),
    };
    let (whole, _) = calls.as_chunks::<6>();
    for entry in whole {
        operation(rt, Call::from(*entry), &mut left);
    }
    let tally = left.counts;
    let _ = println!(rt;
        "tally {} {} {}",
        tally.reads, tally.writes, tally.contested
    );
    print_rounds(rt, &left.state);
    print_seats(rt, &left.state);
}

// The first poll of the bytes; the bytes after it.
fn poll<'a>(rt: &impl Print, bytes: &'a [u8]) -> &'a [u8]
    requires { 0 < length bytes.now }
    ensures { length result.now < length bytes.now }
{
    let caller = test_caller_byte::caller_of(bytes[0]);
    let n = part_bytes::byte(bytes, 1);
    let told = part_bytes::word16(bytes, 2) as usize;
    let after = &bytes[bytes.len().min(4)..];
    let (calls, rest) = after.split_at(after.len().min(6 * told));
    let opened = poll_open::open(caller, n as usize);
    let _ = println!(rt; "poll {n} {}", code(&opened));
    if let Ok(opened) = opened {
        operations(rt, calls, opened);
    }
    rest
}

fn main(rt: HostRuntime) {
    let mut input = [0u8; 65536];
    let Ok(n) = use_input::read(&rt, b"test_poll", &mut input) else {
        return;
    };
    let mut rest = &input[..n];
    // Kept: each poll takes its bytes off the rest, which no iterator of chunks does, since polls differ in length.
    while !rest.is_empty() {
        rest = poll(&rt, rest);
    }
}
