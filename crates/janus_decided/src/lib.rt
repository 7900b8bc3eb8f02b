// The decided values, stored as bytes for a caller in C (01, "Turn sheets", last paragraph). Past the end none is written.
#![tactic(auto)]

ghost use Rattle.std.specs.Prelude.{◌≡◌};
ghost use Rattle.std.proofs.lemmas.List.Edits.{sets};
ghost use Rattle.model.specs.Export.{decided_bytes, decided_value};

use model::{Phase, Process, Session};

// The decided value of a process; 0 where there is none.
fn decided_value(q: Process) -> u32
    ensures { result ≡ decided_value q.phase q.estimate }
{
    match q.phase {
        Phase::Decided => q.estimate,
        _ => 0,
    }
}

// The bytes of the decided values, four to a process, for all 64.
#[tactic(auto, using(crate::specs::Bytes::decided_more))]
pub fn put_decided(s: Session, buffer: &mut [u8])
    ensures { buffer.new ≡ sets buffer.old 0 (decided_bytes s.processes) }
{
    for (p, q) in s.processes.iter().enumerate() {
        part_bytes_put::put32(buffer, 4 * p, decided_value(*q));
    }
}
