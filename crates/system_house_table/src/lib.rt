// The value table (document 02, wish 11: "one row for each outer round and one entry per ward"), in the form that document 01 names: "An 8
// by 4 array of arrays of u32 passed and returned by value by the ward-name machine."
#![tactic(auto)]

ghost use Rattle.std.specs.Prelude.{◌≡◌};
ghost use Rattle.model_house.specs.House.{table_at, with_entry};

use model_house::Table;

// The entry of outer round o and ward w. Past the end there is none: it reads blank.
pub fn entry(t: Table, o: usize, w: usize) -> u32
    ensures { result ≡ table_at t o w }
{
    let i = o.saturating_sub(1);
    let j = w.saturating_sub(1);
    if i < 8 && j < 4 { t[i][j] } else { 0 }
}

// The table with v there. Past the end a write changes nothing.
pub fn written(t: Table, o: usize, w: usize, v: u32) -> Table
    ensures { result ≡ with_entry t o w v }
{
    let i = o.saturating_sub(1);
    let j = w.saturating_sub(1);
    let mut after = t;
    if i < 8 && j < 4 {
        after[i][j] = v;
    }
    after
}
