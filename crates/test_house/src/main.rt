// Houses (02, wish 11) run from a list of operations, and what each call answers. Standard input: houses one after another. Each is a byte,
// c; a byte, n; n bytes, the ward of each worker; 16 bits, the number of its operations, low byte first; and its operations of six bytes,
// kind, a and a number of 32 bits. Kinds: 0 proposal of the number by worker a, 1 turn of worker a, with hint yes if the number is not 0,
// 2 its crash, 3 its house look; any other sets a field, as only a test may. Each house has a tally of its own. Standard output: a line for
// the opening and for each operation, with its refusal's number or 0; then what is left. reference/src/houses.rs lists the fields and the
// lines.
#![tactic(auto)]

ghost use Rattle.std.specs.Prelude.{◌<◌, length};

use call::Call;
use model::{After, Counts, code};
use model_house::House;
use std::io::Print;

mod call;
mod fields;
mod shown;

// One operation, and its line. What cannot be written is lost, here and below: a test compares what was.
fn operation(rt: &impl Print, call: Call, left: &mut After<House>) {
    let code = code(&call.carry_out(left));
    let _ = match call {
        Call::Set(..) => println!(rt; "{call}"),
        _ => println!(rt; "{call} {code}"),
    };
}

// The operations, as far as the input has them whole; then the end.
fn operations(rt: &impl Print, calls: &[u8], opened: House) {
    let mut left = After {
        state: opened,
        counts: Counts::default(),
    };
    let (whole, _) = calls.as_chunks::<6>();
    for entry in whole {
        operation(rt, Call::from(*entry), &mut left);
    }
    shown::end(rt, &left);
}

// The first house of the bytes, with the wards that the input has; the bytes after it.
fn house<'a>(rt: &impl Print, bytes: &'a [u8]) -> &'a [u8]
    requires { 0 < length bytes.now }
    ensures { length result.now < length bytes.now }
{
    let c = bytes[0];
    let told = part_bytes::byte(bytes, 1) as usize;
    let after = &bytes[bytes.len().min(2)..];
    let (wards, after) = after.split_at(after.len().min(told));
    let count = part_bytes::word16(after, 0) as usize;
    let after = &after[after.len().min(2)..];
    let (calls, rest) = after.split_at(after.len().min(6 * count));
    let n = wards.len();
    let opened = system_house_open::open(c as usize, wards);
    let _ = println!(rt; "house {c} {n} {}", code(&opened));
    if let Ok(opened) = opened {
        operations(rt, calls, opened);
    }
    rest
}

fn main(rt: HostRuntime) {
    let mut input = [0u8; 65536];
    let Ok(n) = use_input::read(&rt, b"test_house", &mut input) else {
        return;
    };
    let mut rest = &input[..n];
    // Kept: each house takes its bytes off the rest, which no iterator of chunks does, since houses differ in length.
    while !rest.is_empty() {
        rest = house(&rt, rest);
    }
}
