// The register operation of a turn on the registers of a round, T[r] and C[r]: what it reads, and what it leaves in each.
#![tactic(auto)]

ghost use Rattle.std.specs.Prelude.{◌≡◌};
ghost use Rattle.model_laws.specs.Registers.{slot as slot_of, value_in, mark_in, values_after, marks_after};

use model::Access;
use std::mem;

// The index of the register of round r: r - 1 for the rounds 1 to 256. For any other number it is some index, so that no caller is asked
// for anything; it compiles to two instructions.
fn slot(r: usize) -> usize
    ensures { result ≡ slot_of r }
{
    (r % 256 + 255) % 256
}

// 01, "One turn at a time": the value register T[r], read or written with e. 0 where the operation reads no value.
// Kept: numbers and no Option, here and below, since the clauses say `value_in` and `mark_in`, of which laws speak.
pub fn value(values: &mut [u32; 256], a: Access, e: u32) -> u32
    ensures reads { result ≡ value_in values.old a }
    ensures writes { values.new ≡ values_after values.old a e }
{
    match a {
        Access::ReadValue(r) => values[slot(r)],
        Access::WriteValue(r) => {
            values[slot(r)] = e;
            0
        }
        _ => 0,
    }
}

// The same of the mark C[r], read or set: the mark that stood there before; v where the operation goes to no mark.
pub fn mark(v: u32, marks: &mut [bool; 256], a: Access) -> u32
    ensures reads { result ≡ mark_in v marks.old a }
    ensures writes { marks.new ≡ marks_after marks.old a }
{
    match a {
        Access::ReadMark(r) => u32::from(marks[slot(r)]),
        Access::SetMark(r) => u32::from(mem::replace(&mut marks[slot(r)], true)),
        _ => v,
    }
}
