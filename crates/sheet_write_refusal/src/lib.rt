// The refusal of what is to be written as a sheet. 02, wish 3: "Order: 1, 2, 12 for the entry buffer, 17, 13, then 15 if the output is too
// short."
#![tactic(auto)]

ghost use Rattle.std.specs.Prelude.{◌≡◌, ◌&&◌, ◌+◌, ◌*◌, ◌/◌, length, leb, eqb};
ghost use Rattle.model.specs.Answers.{code};
ghost use Rattle.model.specs.Board.{limits_of};
ghost use Rattle.model_write.specs.Write.{total, well_formed as well_formed_of, buffer_entries, write_refusal as write_refusal_of};

use model::{Caller, Refusal};
use part_entry::{formed, number32};

// Whether the run lengths add up to so many entries, however large they are: each is taken off the entries that are left.
fn add_up(lengths: &[usize], entries: usize) -> bool
    ensures { result ≡ eqb (total lengths.now) entries }
{
    lengths
        .iter()
        .try_fold(entries, |left, m| left.checked_sub(*m))
        == Some(0)
}

// "17: more than 16 runs, over 65,535 bytes, or run lengths that do not add up to the entries", of an entry buffer of so many bytes.
fn writable(size: usize, lengths: &[usize]) -> bool
    ensures { result ≡ leb (length lengths.now) 16
        && leb (4 + 4 * length lengths.now + size) 65535
        && eqb (total lengths.now) (size / 6) }
{
    let count = lengths.len();
    count <= 16 && size <= 65531 - 4 * count && add_up(lengths, size / 6)
}

// 01, 13: "entry with an unknown kind or a wrong value": whether no entry is such a one.
fn well_formed(entries: &[u8]) -> bool
    ensures { result ≡ well_formed_of (buffer_entries entries.now) }
{
    let (whole, _) = entries.as_chunks::<6>();
    for [kind, p, a, b, c, d] in whole {
        if !formed(*kind, *p, number32(*a, *b, *c, *d)) {
            return false;
        }
    }
    true
}

// Within the caller's limits. `room` is the length of the output.
// Kept: six parameters, as those of `sheet_write::write`.
#[tactic(auto, using(model_laws::specs::Accepted::refusal_append, crate::proofs::Tests::own_tests), unfolding(model_write::specs::Write::write_refusal))]
pub fn write_refusal(
    caller: Caller,
    n: usize,
    limit: usize,
    entries: &[u8],
    lengths: &[usize],
    room: usize,
) -> Result<(), Refusal>
    ensures { code result ≡ write_refusal_of (limits_of caller) n limit entries.now lengths.now room }
{
    session_open::open_refusal(caller, n, limit)?;
    if entries.len() % 6 != 0 {
        return Err(Refusal::BadRun);
    }
    if !writable(entries.len(), lengths) {
        return Err(Refusal::BadCuts);
    }
    if !well_formed(entries) {
        return Err(Refusal::BadEntry);
    }
    if room < 4 + 4 * lengths.len() + entries.len() {
        return Err(Refusal::BadBuffer);
    }
    Ok(())
}
