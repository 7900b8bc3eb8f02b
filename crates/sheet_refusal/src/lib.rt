// The refusal of a sheet. 01, "Turn sheets" and "Numbers returned", rows 10, 1, 2, 11 and 12.
#![tactic(auto)]

ghost use Rattle.std.specs.Prelude.{◌≡◌, ◌+◌, ◌&&◌, leb, length};
ghost use Rattle.std.specs.Bool.{then_some};
ghost use Rattle.model.specs.Answers.{code};
ghost use Rattle.model.specs.Board.{limits_of};
ghost use Rattle.model.specs.Sheet.{run_at, runs, header_end, is_in_order, whole_entries, sheet_refusal};
ghost use Rattle.model.specs.Sound.{every};

use model::{Caller, Refusal};

// Where run i ends, if it starts at `from` or past it and ends within the sheet.
fn end_of(s: &[u8], from: usize, i: usize) -> Option<usize>
    ensures { let run = run_at s.now i in let end = run.offset + run.size in
        result ≡ then_some (leb from run.offset && leb end (length s.now)) end }
{
    let run = sheet_layout::run_at(s, i);
    let end = run.offset + run.size;
    (from <= run.offset && end <= s.len()).then_some(end)
}

// 11: whether each run starts where the one before it ended, or past that, and ends within the sheet.
fn in_order(s: &[u8]) -> bool
    ensures { result ≡ is_in_order (header_end s.now) (length s.now) (runs s.now) }
{
    let count = part_bytes::byte(s, 1) as usize;
    (0..count)
        .try_fold(4 + 4 * count, |from, i| end_of(s, from, i))
        .is_some()
}

// 12: whether each run is of whole entries.
fn whole(s: &[u8]) -> bool
    ensures { result ≡ every whole_entries (runs s.now) }
{
    let count = part_bytes::byte(s, 1) as usize;
    (0..count).all(|i| sheet_layout::run_at(s, i).size % 6 == 0)
}

// Within the caller's limits. "Order: .. Sheet 10, 1, 2, 11 over all pairs, 12 over all runs". 10: "sheet under 4 or over 65,535 bytes,
// over 16 pairs, or too short for its pairs". "Byte 0: n. Byte 1: the count p of pairs, 0 to 16. Bytes 2 and 3: L."
#[tactic(auto, using(crate::specs::Parts::by_parts), unfolding(model::specs::Sheet::sheet_refusal))]
pub fn refusal(caller: Caller, s: &[u8]) -> Result<(), Refusal>
    ensures { code result ≡ sheet_refusal (limits_of caller) s.now }
{
    let count = part_bytes::byte(s, 1) as usize;
    if s.len() < 4 || 65535 < s.len() || 16 < count || s.len() < 4 + 4 * count {
        return Err(Refusal::BadSheet);
    }
    let n = part_bytes::byte(s, 0) as usize;
    let limit = part_bytes::word16(s, 2) as usize;
    session_open::open_refusal(caller, n, limit)?;
    if !in_order(s) {
        return Err(Refusal::BadPairs);
    }
    if !whole(s) {
        return Err(Refusal::BadRun);
    }
    Ok(())
}
