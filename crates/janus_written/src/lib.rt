// The sheet writer for callers in C (02, wish 3): the size goes to a lent number.
#![tactic(auto)]

ghost use Rattle.std.specs.Prelude.{◌≡◌};
ghost use Rattle.model.specs.Answers.{code};
ghost use Rattle.model_write.specs.WriteExport.{export_of, write_export};

use model::{Caller, Refusal};

// Writes a sheet of the entries, cut into runs of the given lengths in entries, to the lent buffer, within the caller's limits (02, wish
// 9), and its size to the lent number; refused, it changes nothing.
// Kept: seven parameters, which C gives one by one (`janus_write`).
#[tactic(auto, unfolding(model_write::specs::WriteExport::write_export))]
pub fn write(
    caller: Caller,
    n: usize,
    limit: usize,
    entries: &[u8],
    lengths: &[usize],
    sheet: &mut [u8],
    size: &mut usize,
) -> Result<(), Refusal>
    ensures { export_of (code result) sheet.new size.new
        ≡ write_export caller n limit entries.now lengths.now sheet.old size.old }
{
    *size = sheet_write::write(caller, n, limit, entries, lengths, sheet)?;
    Ok(())
}
