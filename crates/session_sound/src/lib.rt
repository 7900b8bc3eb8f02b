// When a session is sound (document 01, "Numbers returned", last paragraph): the test that every public operation makes first.
#![tactic(auto)]

ghost use Rattle.std.specs.Prelude.{◌≡◌, ◌≤◌, not, ◌&&◌, length, drop, eqb};
ghost use Rattle.model.specs.Sound.{every, sound_as as sound_as_of, sound as sound_of};

use model::Session;
use part_sound::record_sound;

// 01: "registers and marks past L are blank and unmarked": those from an index on.
fn blank_from(values: &[u32; 256], marks: &[bool; 256], from: usize) -> bool
    requires { from ≤ 256 }
    ensures { result ≡ every (λ x. eqb x 0) (drop from values.now) && every not (drop from marks.now) }
{
    values[from..]
        .iter()
        .zip(marks[from..].iter())
        .all(|(value, marked)| (*value == 0) & !*marked)
}

// "A session is sound if: n is 1 to 64, L is W to 256", the registers and marks past L, and its records, in one pass. A poll, if its own
// rules hold too: 02, wish 6, it "has L = W, a blank D"; wish 10, it "is open". 02, wish 9: "soundness, 3, stays with the server's" limits, whoever opened it.
// Kept: a flag tells a poll from a session, here and where it is handed on, since the definitions and laws take it so (`sound_as`).
#[tactic(auto, using(model_laws::specs::SoundTests::few, model_laws::specs::SoundTests::processes_fail, model_laws::specs::SoundTests::rounds_fail), unfolding(model::specs::Sound::poll_registers))]
pub fn sound_as(poll: bool, s: Session) -> bool
    ensures { result ≡ sound_as_of poll s }
{
    let Session { n, limit, .. } = s;
    if !((1 <= n) & (n <= 64)) {
        return false;
    }
    let window = part_window::window(n as u8);
    let only = !poll | ((limit == window) & (s.decision == 0) & !s.closed);
    let rounds = (window <= limit) & (limit <= 256) & only;
    rounds
        && blank_from(&s.values, &s.marks, limit)
        && s.processes
            .iter()
            .enumerate()
            .all(|(i, q)| record_sound(poll, window, limit, i < n, *q))
}

// Of a session.
pub fn sound(s: Session) -> bool
    ensures { result ≡ sound_of s }
{
    sound_as(false, s)
}
