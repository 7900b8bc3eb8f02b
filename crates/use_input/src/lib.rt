// How a program reads standard input: to its end, or until a buffer is full. A read that fails is never taken for the end of the input, so
// that a sheet is not judged by its first part.
//
// A read that a signal interrupts (EINTR) counts as failed and is not tried again. These programs catch no signal, so the system itself
// goes on with such a read, or ends the program.
#![tactic(auto)]

ghost use Rattle.std.specs.Prelude.{IsErr};
ghost use Rattle.use_input.specs.Input.{InputHeld};

use std::io::{Print, Read};

// A read failed, and standard error says so.
#[derive(Clone, Copy)]
pub struct ReadFailed;

// What cannot be written to standard error is lost: there is nowhere else to say it.
// Kept: bytes and no `eprintln!` of a `&str`, since a name that is no text would then be refused, which `read` does not do.
fn failed(rt: &HostRuntime, program: &[u8]) -> Result<usize, ReadFailed>
    ensures { IsErr result }
{
    let _ = rt.stderr().write_all(program);
    let _ = rt.stderr().write_all(b": standard input cannot be read\n");
    Err(ReadFailed)
}

// The number of bytes that were read, which stand from the buffer's start on. Where a read fails, one line on standard error says so, with
// the program's name.
pub fn read(rt: &HostRuntime, program: &[u8], buf: &mut [u8]) -> Result<usize, ReadFailed>
    ensures { InputHeld result buf.new }
{
    let mut input = rt.stdin();
    let mut done: usize = 0;
    // Kept: how far a read came is what that read says, which no iterator counts.
    while done < buf.len() {
        let Ok(count) = input.read(&mut buf[done..]) else {
            return failed(rt, program);
        };
        if count == 0 {
            return Ok(done);
        }
        done += count;
    }
    Ok(done)
}
