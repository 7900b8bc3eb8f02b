// Places in a sheet: the first, and the next. (`sheet_handed` has what one hands out.)
#![tactic(auto)]

ghost use Rattle.std.specs.Prelude.{◌≡◌, ◌-◌, ◌<◌, leb};
ghost use Rattle.std.specs.Bool.{then_some};
ghost use Rattle.model.specs.Sheet.{run_at, run_count};
ghost use Rattle.sheet_laws.specs.Places.{encode, opened_run, open_from as open_from_of, begin as begin_of, advanced};

use sheet_laws::{ENTRY, RUN};

// The place at which run i is opened, if it has an entry. "Length 0 is allowed".
fn opened(s: &[u8], i: usize) -> Option<usize>
    requires { i < 256 }
    ensures { let run = run_at s.now i in result ≡ then_some (leb 6 run.size) (encode (opened_run i run)) }
{
    let run = sheet_layout::run_at(s, i);
    (6 <= run.size).then_some(run.offset + ENTRY * (run.size / 6) + RUN * (i + 1))
}

// The first run from the given one on that has an entry, opened.
fn open_from(s: &[u8], first: usize) -> usize
    requires { first < 17179869184 }
    ensures { result ≡ encode (open_from_of s.now first (run_count s.now - first)) }
{
    let count = part_bytes::byte(s, 1) as usize;
    (first..count)
        .find_map(|i| opened(s, i))
        .unwrap_or(RUN * first.max(count))
}

// Where the reader starts.
#[tactic(auto, unfolding(sheet_laws::specs::Places::begin, sheet_laws::specs::Places::settled))]
pub fn begin(s: &[u8]) -> usize
    ensures { result ≡ begin_of s.now }
{
    open_from(s, 0)
}

// The place behind the entry that this one hands out: in the same run where that has another entry, else in the next.
#[tactic(auto, using(sheet_laws::specs::Steps::left_more, sheet_laws::specs::Steps::left_fewer, sheet_laws::specs::Steps::next_within, sheet_laws::specs::Steps::next_run))]
pub fn advance(s: &[u8], place: usize) -> usize
    ensures { result ≡ advanced s.now place }
{
    if 2 * ENTRY <= place % RUN {
        return place - ENTRY + 6;
    }
    open_from(s, place / RUN)
}
