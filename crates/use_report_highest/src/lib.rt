// The highest filled round, of the board line (01, "The board report").
#![tactic(auto)]

ghost use Rattle.std.specs.Prelude.{◌≡◌};
ghost use Rattle.model.specs.Board.{highest_from};

// 01: "the highest filled round (0 for none)".
pub fn highest(values: &[u32]) -> usize
    ensures { result ≡ highest_from 0 0 values.now }
{
    values.iter().rposition(|x| *x != 0).map_or(0, |r| r + 1)
}
