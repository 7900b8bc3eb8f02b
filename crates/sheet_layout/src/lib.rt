// Where the runs of a sheet lie. 01, "Turn sheets": "Then p pairs, 16-bit offset and 16-bit length, offsets from the sheet's
// start, sorted by offset."
#![tactic(auto)]

ghost use Rattle.sheet_layout.specs.Runs.{IsRun};

// A run (01: a pair): where it starts, and its length in bytes.
#[derive(Clone, Copy)]
pub struct Span {
    pub offset: usize,
    pub size: usize,
}

// The run numbered i, whatever i is: past the end of the bytes both numbers are 0.
pub fn run_at(s: &[u8], i: usize) -> Span
    ensures { IsRun s.now i result.offset result.size }
{
    if s.len() / 4 <= i {
        return Span { offset: 0, size: 0 };
    }
    let at = 4 + 4 * i;
    Span {
        offset: usize::from(part_bytes::word16(s, at)),
        size: usize::from(part_bytes::word16(s, at + 2)),
    }
}
