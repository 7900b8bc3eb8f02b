// A turn and a house look, with the counts lent (document 02, wish 11: "one lent tally counts these and the house looks"). A refused call
// leaves the counts as they were, by the same equation.
#![tactic(auto)]

ghost use Rattle.std.specs.Prelude.{◌≡◌};
ghost use Rattle.model_house.specs.Answers.{told_house};
ghost use Rattle.model_house.specs.Public.{with_house_counts, house_turn, house_learn};

use model::{Counts, Refusal};
use model_house::House;

// Kept: beside the turn by value, the form that 01 names, "Tally of three counts lent by &mut to a thin turn function over the covered
// by-value step", and theorems speak of both contracts (`house_turn_contract`, `house_turn_value_contract`).

// 02, wish 11: a turn of a worker: "Each turn makes at most one register operation, table and house register included".
pub fn turn(h: House, p: usize, hint: bool, counts: &mut Counts) -> Result<House, Refusal>
    ensures { with_house_counts (told_house h result) counts.new ≡ house_turn h p hint counts.old }
{
    let after = system_house_turn::turn(h, p, hint, *counts)?;
    Ok(after.store_counts(counts))
}

// 02, wish 11: "A house look at the house register, taken instead of a turn by a working or spent worker".
pub fn learn(h: House, p: usize, counts: &mut Counts) -> Result<House, Refusal>
    ensures { with_house_counts (told_house h result) counts.new ≡ house_learn h p counts.old }
{
    let after = system_house_change::learn(h, p, *counts)?;
    Ok(after.store_counts(counts))
}
