// The reader of `sheet_reader_held`, for callers outside: what it does, by functions whose parameters are plain. 01, "Turn sheets": "A
// reader that stays attached to the sheet's bytes and its place hands the entries out."
// Kept: beside the functions of `sheet_place` and `sheet_handed`, since document 01 names the form of a reader, and theorems speak of these
// contracts (`first_place_contract`, `entry_at_contract`, `place_after_contract`).
#![tactic(auto)]

ghost use Rattle.std.specs.Prelude.{◌≡◌};
ghost use Rattle.sheet_laws.specs.Places.{begin, handed, advanced};

use model::Entry;
pub use sheet_laws::Reader;
pub use sheet_reader_held::{attach, entry, moved};

// The place of a reader that was just attached.
pub fn first_place(sheet: &[u8]) -> usize
    ensures { result ≡ begin sheet.now }
{
    sheet_reader_held::attach(sheet).place
}

// What a reader at the place hands out.
pub fn entry_at(sheet: &[u8], place: usize) -> Option<Entry>
    ensures { result ≡ handed sheet.now place }
{
    sheet_reader_held::entry(Reader { sheet, place })
}

// Where a reader at the place stands once it has moved on.
pub fn place_after(sheet: &[u8], place: usize) -> usize
    ensures { result ≡ advanced sheet.now place }
{
    sheet_reader_held::moved(Reader { sheet, place }).place
}
