// A turn of a poll (02, wish 6), with the counts lent (01: "The caller lends its tally, which a turn updates where it stands"). A refused
// call leaves the counts as they were, by the same equation.
#![tactic(auto)]

ghost use Rattle.std.specs.Prelude.{◌≡◌};
ghost use Rattle.model_poll.specs.Answers.{told_polled};
ghost use Rattle.model_poll.specs.Public.{poll_turn, with_lent};

use model::{Counts, Refusal, Session};
use model_poll::Polled;

// Kept: beside the turn by value, since 01 names the form, "Tally of three counts lent by &mut to a thin turn function over the
// covered by-value step" (docs/DECISIONS.md, 12), and theorems speak of both contracts (`turn_contract`, `turn_value_contract`).
pub fn turn(s: Session, p: usize, counts: &mut Counts) -> Result<Polled, Refusal>
    ensures { with_lent (told_polled s result) counts.new ≡ poll_turn s p counts.old }
{
    let after = poll_turn::turn(s, p, *counts)?;
    Ok(after.store_counts(counts))
}
