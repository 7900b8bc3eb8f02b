// Any entry of a sheet, by its kind, process and value, on a session, given any session at all, with the counts by value.
#![tactic(auto)]

ghost use Rattle.std.specs.Prelude.{◌≡◌};
ghost use Rattle.model.specs.Answers.{told_counted};
ghost use Rattle.model.specs.Public.{commanded};
ghost use Rattle.model.specs.Runner.{entry_answer};
ghost use Rattle.model.specs.Sheet.{entry_of};

use model::{After, Counts, Entry, Refusal, Session};

// 01, "Numbers returned": "each entry 13 first, then its operation's own order". A close leaves the counts as they are.
// Kept: three numbers and no `RawEntry`, since the clause says `entry_of` of the three, here and in `part_entry`.
pub fn apply(s: Session, c: Counts, kind: u8, p: u8, value: u32) -> Result<After<Session>, Refusal>
    ensures { told_counted s c result ≡ entry_answer commanded s c (entry_of kind p value) }
{
    match part_entry::entry_of(kind, p, value) {
        Entry::Acts(o) => session_operate::operate(s, c, o),
        Entry::Closes => {
            let state = session_close::close(s)?;
            Ok(After { state, counts: c })
        }
        Entry::Malformed => Err(Refusal::BadEntry),
    }
}
