// Entries of short lists (02, wish 12) as three numbers: read from bytes, stored as bytes, and numbered among those that a list may have.
#![tactic(auto)]

ghost use Rattle.std.specs.Prelude.{◌≤◌, ◌*◌, ◌≡◌};
ghost use Rattle.std.proofs.lemmas.List.Edits.{sets};
ghost use Rattle.model_short.specs.Short.{choices};
ghost use Rattle.model_short.specs.Calls.{raw_bytes, raw_at as raw_at_of};
ghost use Rattle.model_short_laws.specs.Entries.{index_in};
ghost use Rattle.model_short_laws.specs.Numbered.{choice as choice_of};

use model_short::RawEntry;

// The entry at an offset of the buffer. Past its end every byte reads as 0.
#[tactic(auto, unfolding(model_short::specs::Calls::raw_at))]
pub fn raw_at(buffer: &[u8], at: usize) -> RawEntry
    ensures { result ≡ raw_at_of buffer.now at }
{
    let rest = part_bytes::bytes_from(buffer, at);
    RawEntry {
        kind: part_bytes::byte(rest, 0),
        process: part_bytes::byte(rest, 1),
        value: part_bytes::word32(rest, 2),
    }
}

// An entry stored there. Past the end nothing is.
pub fn put_raw(buffer: &mut [u8], at: usize, x: RawEntry)
    ensures { buffer.new ≡ sets buffer.old at (raw_bytes x) }
{
    let [a, b, c, d] = x.value.to_le_bytes();
    part_bytes_put::put_bytes(buffer, at, &[x.kind, x.process, a, b, c, d]);
}

// The entry that has number e, from 0: 02, wish 12, "by kind, then seat, then value". From 5n on there is none, and zeros stand for it.
// Kept: an entry and no Option, since the clause says `choice`, of which laws speak.
#[tactic(auto, using(model_short_laws::specs::Numbered::choice_propose, model_short_laws::specs::Numbered::choice_step, model_short_laws::specs::Numbered::choice_learn, model_short_laws::specs::Numbered::choice_crash, model_short_laws::specs::Numbered::choice_none))]
pub fn choice(n: u8, e: usize) -> RawEntry
    ensures { result ≡ choice_of n e }
{
    let k = usize::from(n);
    if e < k {
        let p = e as u8;
        RawEntry {
            kind: 0,
            process: p,
            value: u32::from(p) + 1,
        }
    } else if e < 3 * k {
        let f = e - k;
        RawEntry {
            kind: 1,
            process: (f / 2) as u8,
            value: (f % 2) as u32,
        }
    } else if e < 4 * k {
        RawEntry {
            kind: 2,
            process: (e - 3 * k) as u8,
            value: 0,
        }
    } else if e < 5 * k {
        RawEntry {
            kind: 3,
            process: (e - 4 * k) as u8,
            value: 0,
        }
    } else {
        RawEntry::default()
    }
}

// The number of an entry; 5n if no list may have it.
// Kept: a number and no Option, since the clause says `index_in`, by which the search goes on from it.
pub fn number_of(n: u8, x: RawEntry) -> usize
    ensures { (result ≡ index_in x (choices n)) × (result ≤ 5 * n) }
{
    let end = 5 * usize::from(n);
    (0..end).find(|e| x == choice(n, *e)).unwrap_or(end)
}
