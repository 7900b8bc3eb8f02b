// The operations that count, with the counts lent (01: "The caller lends its tally, which a turn updates where it stands"). A
// refused call leaves the counts as they were, by the same equation.
#![tactic(auto)]

ghost use Rattle.std.specs.Prelude.{◌≡◌};
ghost use Rattle.model.specs.Answers.{told};
ghost use Rattle.model.specs.Public.{with_counts, step as step_of, learn as learn_of};

use model::{Counts, Refusal, Session};

// Kept: beside the turn by value, since 01 names the form, "Tally of three counts lent by &mut to a thin turn function over the
// covered by-value step" (docs/DECISIONS.md, 12), and theorems speak of both contracts (`step_contract`, `step_value_contract`).

// 01, "One turn at a time": a work turn.
pub fn step(s: Session, p: usize, leader: bool, counts: &mut Counts) -> Result<Session, Refusal>
    ensures { with_counts (told s result) counts.new ≡ step_of s p leader counts.old }
{
    let after = session_step::step(s, p, leader, *counts)?;
    Ok(after.store_counts(counts))
}

// 01, "One turn at a time": a look.
pub fn learn(s: Session, p: usize, counts: &mut Counts) -> Result<Session, Refusal>
    ensures { with_counts (told s result) counts.new ≡ learn_of s p counts.old }
{
    let after = session_learn::learn(s, p, *counts)?;
    Ok(after.store_counts(counts))
}
