// The data of short lists (document 02, wish 12: "Every short sheet there is"), with no function.
#![tactic(auto)]

// An entry as it stands in a sheet, three numbers (01, "Turn sheets": "kind, seat, 32-bit value"). What it says is `model::Entry`.
// Kept: the kind is a number, since these are the bytes as they stand, of which laws speak (`raw_at`).
#[derive(Clone, Copy, Default, PartialEq, Eq)]
pub struct RawEntry {
    pub kind: u8,
    pub process: u8,
    pub value: u32,
}
