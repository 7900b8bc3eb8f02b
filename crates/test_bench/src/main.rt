// One public operation called many times over, for bench/run.sh. Standard input: a byte, the operation, and the number of calls, 32 bits,
// low byte first. Standard output: a number that comes of the answers, so that no call can be left out.
#![tactic(auto)]

ghost use Rattle.std.specs.Prelude.{◌<◌, ◌≤◌};

use model::{Caller, Counts, Refusal, Session};
use session_crash::crash;
use session_open::open;
use session_propose::{propose, propose_as};
use session_read_decision::decision;
use session_read_process::process_record;
use session_read_register::register;
use session_step_lent::{learn, step};
use session_values::standing_values;
use std::io::Print;

// A session of 8 processes and 256 rounds, or a poll of 8, in which all but process 7 have proposed.
fn proposed(poll: bool) -> Result<Session, Refusal> {
    let mut s = if poll {
        poll_open::open(Caller::Server, 8)?
    } else {
        open(Caller::Server, 8, 256)?
    };
    for p in 0..7 {
        s = propose_as(poll, s, p, 1 + p as u32)?;
    }
    Ok(s)
}

// Operations whose answers hold a session: each is kept, as a caller keeps it. The calls are made on the same session, so that each is
// accepted; here and below one register is filled before each call, so that no call is the same as the one before. Those that count have a
// tally of their own for each call.
// Kept: the operation is picked in the loop. With a closure in its place the compiler makes the opening once, ahead of the loop (measured:
// 0 ns a call).
fn changed(operation: u8, rounds: u32, count: u32, start: Session) -> Result<u32, Refusal>
    requires { (0 < rounds) × (rounds ≤ 256) }
{
    let mut s = start;
    let mut after = start;
    for i in 0..count {
        s.values[(i % rounds) as usize] = 1 + i % 8;
        after = match operation {
            0 => open(Caller::Server, 8, 256)?,
            1 => propose(s, 7, 8)?,
            2 => step(s, 0, false, &mut Counts::default())?,
            3 => step(s, 0, true, &mut Counts::default())?,
            4 => learn(s, 0, &mut Counts::default())?,
            5 => crash(s, 0)?,
            _ => poll_turn::turn(s, 0, Counts::default())?.state.session,
        };
    }
    Ok(after.values[(count % rounds) as usize])
}

// A read-out, called likewise: the sum of what it tells.
fn told<F: FnMut(&Session, u8) -> Result<u32, Refusal>>(
    count: u32,
    start: Session,
    mut call: F,
) -> Result<u32, Refusal>
    requires { F.IsAlwaysCallable call }
{
    let mut s = start;
    let mut sum: u32 = 0;
    for i in 0..count {
        let r = (i % 256) as u8;
        s.values[r as usize] = 1 + i % 8;
        sum = sum.wrapping_add(call(&s, r)?);
    }
    Ok(sum)
}

// The number of an operation. Of a poll, in operation 10, the 6 rounds alone may be filled.
// Kept: a `match`, since the operation's number comes from the input: no plainer in another form.
fn called(operation: u8, count: u32) -> Result<u32, Refusal> {
    let s = proposed(operation > 9)?;
    match operation {
        0..=5 => changed(operation, 256, count, s),
        6 => told(count, s, |s, r| Ok(register(*s, 1 + r as usize)?.value)),
        7 => told(
            count,
            s,
            |s, r| Ok(process_record(*s, r as usize % 8)?.estimate),
        ),
        8 => told(count, s, |s, _| decision(*s)),
        9 => {
            let mut buffer = [0u32; 256];
            let sum = told(count, s, |s, _| standing_values(*s, &mut buffer).map(|_| 0))?;
            Ok(sum.wrapping_add(buffer[7]))
        }
        _ => changed(operation, 6, count, s),
    }
}

fn main(rt: HostRuntime) {
    let mut asked = [0u8; 5];
    let Ok(_) = use_input::read(&rt, b"test_bench", &mut asked) else {
        return;
    };
    let [operation, a, b, c, d] = asked;
    if let Ok(number) = called(operation, u32::from_le_bytes([a, b, c, d])) {
        let _ = print!(rt; "{number}");
    }
}
