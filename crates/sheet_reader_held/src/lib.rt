// A reader that stays attached to a sheet's bytes and its place. 01, "Turn sheets": "A reader that stays attached to the
// sheet's bytes and its place hands the entries out." Each function takes the reader apart and leaves the work to
// `sheet_place` and `sheet_handed`; for callers that keep a place as a plain number there are the functions of `sheet_reader`.
// Kept: functions over a reader and no Iterator, since document 01 names this form, a few thin functions above those of slice and number.
#![tactic(auto)]

ghost use Rattle.std.specs.Prelude.{◌≡◌};
ghost use Rattle.sheet_laws.specs.Reading.{attached, handed_by, moved_on};

use model::Entry;
use sheet_laws::Reader;

// At the first entry's place.
pub fn attach(sheet: &[u8]) -> Reader<'_>
    ensures { result ≡ attached sheet.entry }
{
    Reader {
        sheet,
        place: sheet_place::begin(sheet),
    }
}

// What the reader hands out at its place.
pub fn entry(r: Reader<'_>) -> Option<Entry>
    ensures { result ≡ handed_by r.entry }
{
    sheet_handed::handed(r.sheet, r.place)
}

// Moves on by one entry.
pub fn moved(r: Reader<'_>) -> Reader<'_>
    ensures { result ≡ moved_on r.entry }
{
    Reader {
        place: sheet_place::advance(r.sheet, r.place),
        ..r
    }
}
