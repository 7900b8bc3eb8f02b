// The calls for the first short list and for the next one (02, wish 12) as an archive, for the tests beside the separate program.
#![tactic(auto)]

ghost use Rattle.std.specs.Prelude.{◌≡◌};
ghost use Rattle.model_short.specs.Calls.{listed, first_result, next_result};

use model::code;

// Writes the first legal list to the buffer: `sheet_short::first`.
#[unsafe(no_mangle)]
pub extern "C" fn short_first(n: usize, length: usize, buffer: &mut [u8]) -> u32
    ensures { listed result buffer.new ≡ first_result n length buffer.old }
{
    code(&sheet_short::first(n, length, buffer))
}

// Writes the next legal list over the one in the buffer: `sheet_short::next`.
#[unsafe(no_mangle)]
pub extern "C" fn short_next(n: usize, length: usize, buffer: &mut [u8]) -> u32
    ensures { listed result buffer.new ≡ next_result n length buffer.old }
{
    code(&sheet_short::next(n, length, buffer))
}
