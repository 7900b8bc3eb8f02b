// One entry of a sheet, where it stands. 01, "Turn sheets": "An entry has 6 bytes: kind, seat, 32-bit value."
#![tactic(auto)]

ghost use Rattle.std.specs.Prelude.{◌≡◌};
ghost use Rattle.model.specs.Sheet.{entry_at};

use model::Entry;
use part_entry::{entry_of, number32};

// The entry at an offset of 16 bits, whatever the offset: past the end every byte reads as 0. Mostly all six bytes are there.
// Kept: six indices. By a pattern of six bytes an entry takes five instructions more (measured), which is more than it took before.
#[tactic(auto, using(crate::specs::Beyond::entry_beyond))]
pub fn entry_at(s: &[u8], offset: u16) -> Entry
    ensures { result ≡ entry_at s.now offset }
{
    let at = offset as usize;
    if at + 6 <= s.len() {
        let low = at + 2;
        let high = low + 2;
        let value = number32(s[low], s[low + 1], s[high], s[high + 1]);
        return entry_of(s[at], s[at + 1], value);
    }
    if s.len() <= at {
        return entry_of(0, 0, 0);
    }
    entry_of(
        s[at],
        part_bytes::byte(s, at + 1),
        part_bytes::word32(s, at + 2),
    )
}
