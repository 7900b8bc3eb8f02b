// The decision register in the register operation of a turn.
#![tactic(auto)]

ghost use Rattle.std.specs.Prelude.{◌≡◌};
ghost use Rattle.model_laws.specs.Registers.{decision_after};

use model::Access;

// The decision register D after the operation.
pub fn decision(d: u32, a: Access, e: u32) -> u32
    ensures { result ≡ decision_after d a e }
{
    match a {
        Access::WriteDecision => e,
        _ => d,
    }
}
