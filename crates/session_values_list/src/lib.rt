// The list of the values that stand in the registers (document 01, "Standing values"; 02, wish 1: their order).
#![tactic(auto)]

ghost use Rattle.std.specs.Prelude.{◌≡◌, min, ◌++◌, length, drop, replicate};
ghost use Rattle.model.specs.ReadOut.{values_to};

// The standing values and how many they are: the first `count` of `values`; 0 behind them.
// Kept: no `Vec`, which would take the heap, and no `ArrayVec`, since the clause `lists` says that zeros stand behind the values.
#[derive(Clone, Copy)]
pub struct Listed {
    pub values: [u32; 256],
    pub count: usize,
}

// "List each value by the first round in which it stands, lowest first"; "a value already found in an earlier round is listed only
// once": the search of the earlier rounds ends the round at the first equal value.
// Kept: an array with a number beside it and no slice, since the clauses speak of any limit, of one above 256 too.
#[tactic(auto, using(model_laws::specs::ListedRounds::round_blank, model_laws::specs::ListedRounds::round_earlier, model_laws::specs::ListedRounds::not_earlier, model_laws::specs::ListedRounds::round_new), unfolding(model::specs::ReadOut::values_to))]
pub fn list(registers: [u32; 256], limit: usize) -> Listed
    ensures counts { result.count ≡ length (values_to registers (min limit 256)) }
    ensures lists { result.values ≡ values_to registers (min limit 256) ++ drop result.count (replicate 256 0) }
{
    let last = limit.min(256);
    let mut values = [0; 256];
    let mut count = 0;
    'rounds: for (r, value) in registers[..last].iter().enumerate() {
        if *value == 0 {
            continue;
        }
        // Kept: the loops and the label are the form that document 01 names (docs/DECISIONS.md, 12).
        for earlier in &registers[..r] {
            if *earlier == *value {
                continue 'rounds;
            }
        }
        values[count] = *value;
        count += 1;
    }
    Listed { values, count }
}
