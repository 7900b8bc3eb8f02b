// What a place in a sheet hands out. 01, "Turn sheets": "A reader that stays attached to the sheet's bytes and its place hands the
// entries out."
#![tactic(auto)]

ghost use Rattle.std.specs.Prelude.{◌≡◌};
ghost use Rattle.sheet_laws.specs.Places.{handed as handed_of};

use model::Entry;
use sheet_laws::{ENTRY, RUN};

// What the place hands out: none where no run has an entry left. "An entry has 6 bytes: kind, seat, 32-bit value."
#[tactic(auto, using(sheet_laws::specs::Steps::left_more, sheet_laws::specs::Steps::left_fewer), unfolding(sheet_laws::specs::Places::handed))]
pub fn handed(s: &[u8], place: usize) -> Option<Entry>
    ensures { result ≡ handed_of s.now place }
{
    if ENTRY <= place % RUN {
        Some(sheet_entry::entry_at(s, (place % ENTRY) as u16))
    } else {
        None
    }
}
