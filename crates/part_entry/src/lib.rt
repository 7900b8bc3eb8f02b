// What the bytes of one entry say. 01, "Turn sheets": "An entry has 6 bytes: kind, seat, 32-bit value."
#![tactic(auto)]

ghost use Rattle.std.specs.Prelude.{◌≡◌, [], ◌∷◌, not};
ghost use Rattle.model.specs.Bytes.{word32};
ghost use Rattle.model.specs.Sheet.{entry_of, is_malformed};

use model::{Entry, Operation};

// "Kinds: 0 propose (any value), 1 work (value 0 is hint no, 1 is yes), 2 look (0), 3 crash (0)." 02, wish 10: "kind 4, seat 0, value 0".
// Kept: three numbers and no `RawEntry`, which is of short lists, since the clauses say `entry_of` of the three.
// Kept: tests one after the other. As one `match` of the three numbers an entry of a sheet takes five instructions more (measured), which is
// more than it took before (docs/BENCHMARKS.md, "The design pass").
#[tactic(auto, using(base::specs::Bools::cond_same, crate::specs::Largest::hinted, crate::specs::Largest::unhinted))]
pub fn entry_of(kind: u8, p: u8, value: u32) -> Entry
    ensures { result ≡ entry_of kind p value }
{
    let process = p as usize;
    if kind == 0 {
        return Entry::Acts(Operation::Propose(process, value));
    }
    if kind == 1 {
        if value <= 1 {
            return Entry::Acts(Operation::Step(process, value != 0));
        }
        return Entry::Malformed;
    }
    if value != 0 {
        return Entry::Malformed;
    }
    if kind == 2 {
        return Entry::Acts(Operation::Learn(process));
    }
    if kind == 3 {
        return Entry::Acts(Operation::Crash(process));
    }
    if kind != 4 {
        return Entry::Malformed;
    }
    if p != 0 {
        return Entry::Malformed;
    }
    Entry::Closes
}

// Whether it is one of these: by the largest value of each kind; a close, which is rare, by a test of its own.
// Kept: a table of the largest values. By a `match` of the kinds six bytes took 5.4 ns and not 1.0 where the kinds are mixed (measured).
#[tactic(auto, using(crate::specs::Largest::formed_largest, crate::specs::Largest::formed_close))]
pub fn formed(kind: u8, p: u8, value: u32) -> bool
    ensures { result ≡ not (is_malformed (entry_of kind p value)) }
{
    let largest: [u32; 4] = [4294967295, 1, 0, 0];
    if kind < 4 {
        value <= largest[kind as usize]
    } else {
        (kind == 4) & ((p == 0) & (value == 0))
    }
}

// The 32-bit number of four bytes.
pub fn number32(a: u8, b: u8, c: u8, d: u8) -> u32
    ensures { result ≡ word32 (a ∷ b ∷ c ∷ d ∷ []) 0 }
{
    u32::from_le_bytes([a, b, c, d])
}
