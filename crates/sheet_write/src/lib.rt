// Writing a sheet (02, wish 3: the writer).
#![tactic(auto)]

ghost use Rattle.std.specs.Prelude.{◌≡◌, ◌+◌, ◌*◌, ◌≤◌, length};
ghost use Rattle.std.proofs.lemmas.List.Edits.{sets};
ghost use Rattle.model.specs.Answers.{told_count};
ghost use Rattle.model.specs.Board.{limits_of};
ghost use Rattle.model_write.specs.Write.{laid_out, pair_bytes, total, wrote, write_result};

use model::{Caller, Refusal};

// The pairs of runs of these lengths, the first behind the pairs, the others without gaps, stored from byte 4 on.
#[tactic(auto, using(model_write_laws::specs::Laid::total_taken, model_write_laws::specs::Laid::total_part, model_write_laws::specs::Laid::pairs_more))]
fn put_pairs(lengths: &[usize], sheet: &mut [u8])
    requires lengths_len_bound { length lengths.now ≤ 16 }
    requires lengths_bound { 4 + 4 * length lengths.now + 6 * total lengths.now ≤ 65535 }
    ensures { sheet.new
        ≡ sets sheet.old 4 (pair_bytes (laid_out (4 + 4 * length lengths.now) lengths.now)) }
{
    let mut from = 4 + 4 * lengths.len();
    for (i, m) in lengths.iter().enumerate() {
        let size = 6 * *m;
        part_bytes_put::put16(sheet, 4 + 4 * i, from as u16);
        part_bytes_put::put16(sheet, 6 + 4 * i, size as u16);
        from += size;
    }
}

// The bytes of the entries, stored from byte `at` on.
// Kept: a loop, for the C interface: `copy_from_slice` asks C for memmove, and the header promises memcpy and memset alone. And a loop of its
// own: by `part_bytes_put::put_bytes` six bytes took 5.0 ns, and so they take 0.2 (measured).
#[tactic(auto, using(base::specs::Arrays::sets_more))]
fn put_entries(entries: &[u8], at: usize, sheet: &mut [u8])
    requires { at + length entries.now ≤ length sheet.old }
    ensures { sheet.new ≡ sets sheet.old at entries.now }
{
    for (i, byte) in entries.iter().enumerate() {
        sheet[at + i] = *byte;
    }
}

// Writes a sheet of the given entries, cut into runs of the given lengths, from the first byte of the output on, within the caller's limits
// (02, wish 9); answers its size. Refused, the output is as it was.
// Kept: six parameters, since C gives them one by one and a theorem speaks of them (`write_contract`).
#[tactic(auto, using(base::specs::Bools::and_right, model_laws::specs::Callers::caller_limits, model_write_laws::specs::Sizes::length_sheet_of, model_write_laws::specs::Facts::write_facts, model_write_laws::specs::Stored::told_refused))]
pub fn write(
    caller: Caller,
    n: usize,
    limit: usize,
    entries: &[u8],
    lengths: &[usize],
    sheet: &mut [u8],
) -> Result<usize, Refusal>
    ensures { wrote (told_count result) sheet.new
        ≡ write_result (limits_of caller) n limit entries.now lengths.now sheet.old }
{
    sheet_write_refusal::write_refusal(caller, n, limit, entries, lengths, sheet.len())?;
    let first = 4 + 4 * lengths.len();
    sheet[0] = n as u8;
    sheet[1] = lengths.len() as u8;
    part_bytes_put::put16(sheet, 2, limit as u16);
    put_pairs(lengths, sheet);
    put_entries(entries, first, sheet);
    Ok(first + entries.len())
}
