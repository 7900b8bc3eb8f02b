// The counts of register operations (01: the tally): when they are full, and what an operation makes of them.
#![tactic(auto)]

ghost use Rattle.std.specs.Prelude.{◌≡◌, cond};
ghost use Rattle.model.specs.Step.{counted as counted_of};
ghost use Rattle.model.specs.Refusal.{full as full_of};

use model::{Access, Counts};

// 01, "Numbers returned", 16: whether some count has reached its largest number.
#[tactic(auto, using(crate::proofs::Room::largest), unfolding(model::specs::Refusal::full))]
pub fn full(c: Counts) -> bool
    ensures { result ≡ full_of c }
{
    (c.reads == u32::MAX) | (c.writes == u32::MAX) | (c.contested == u32::MAX)
}

// 01, "One turn at a time": the tally after a register operation that found x. A full tally stays as it is. 02, wish 2: a flag write that
// found its round unmarked counts as contested, and no other does.
#[tactic(auto, using(base::specs::Bools::cond_cases, crate::proofs::Room::room, crate::proofs::Room::counts_one), unfolding(model::specs::Step::counted, model::specs::Refusal::full))]
pub fn counted(a: Access, x: u32, c: Counts) -> Counts
    ensures { result ≡ cond (full_of c) c (counted_of a x c) }
{
    if full(c) {
        return c;
    }
    match a {
        Access::Nothing => c,
        Access::ReadValue(_) | Access::ReadMark(_) | Access::ReadDecision => Counts {
            reads: c.reads + 1,
            ..c
        },
        Access::WriteValue(_) | Access::WriteDecision => Counts {
            writes: c.writes + 1,
            ..c
        },
        Access::SetMark(_) => Counts {
            writes: c.writes + 1,
            contested: c.contested + u32::from(x == 0),
            ..c
        },
    }
}
