// Laws about reading a sheet (01: a turn sheet): places in it, a reader attached to it, and what the runner's loop keeps. The functions
// stand in `sheet_place`, `sheet_handed`, `sheet_reader_held`, `sheet_reader` and `sheet_run`.
// A place, at which a reader of the entries stands, is one number: the offset of the next entry in its lowest 16 bits, how many entries of
// the current run are left in the 14 above them, and the next run to be opened above these.
// Kept: one number is the position of the form that document 01 names (docs/DECISIONS.md, 12 and 14); as three numbers in a struct an entry
// took five instructions more (docs/BENCHMARKS.md).
#![tactic(auto)]

// One entry left, in a place.
pub const ENTRY: usize = 65536;

// One run.
pub const RUN: usize = 1073741824;

// A reader that stays attached to a sheet's bytes and its place (01, "Turn sheets").
#[derive(Clone, Copy)]
pub struct Reader<'a> {
    pub sheet: &'a [u8],
    pub place: usize,
}
