// The soundness of one board of a house: a ward's session, or a poll.
#![tactic(auto)]

ghost use Rattle.std.specs.Prelude.{◌≡◌, leb};
ghost use Rattle.std.specs.List.{list_all};
ghost use Rattle.model.specs.declared.Process.{Process as ProcessOf};
ghost use Rattle.model_house.specs.Sound.{sound_ward, sound_vote};

use model::{Process, Session};

// 02, wish 11: "a session .. unsound, closed or of another size".
#[tactic(auto, unfolding(model_house::specs::Sound::sound_ward))]
pub fn ward_sound(seats: usize, s: Session) -> bool
    ensures { result ≡ sound_ward seats s }
{
    s.n == seats && s.limit == 64 && !s.closed && session_sound::sound(s)
}

// 02, wish 11: "a poll number above c", in a register.
fn values_low(values: &[u32], c: usize) -> bool
    ensures { result ≡ list_all (λ x. leb x c) values.now }
{
    values.iter().all(|x| *x as usize <= c)
}

// In a seat.
fn estimates_low(processes: &[Process], c: usize) -> bool
    ensures { result ≡ list_all (λ (q : ProcessOf). leb q.estimate c) processes.now }
{
    processes.iter().all(|q| q.estimate as usize <= c)
}

// 02, wish 11: "a .. poll unsound, closed or of another size, a poll number above c".
#[tactic(auto, using(model_laws::specs::Alls::every_listed), unfolding(model::specs::Sound::sound_as, model_house::specs::Sound::sound_vote, model_house::specs::Sound::sound_numbers))]
pub fn vote_sound(n: usize, c: usize, s: Session) -> bool
    ensures { result ≡ sound_vote n c s }
{
    s.n == n
        && session_sound::sound_as(true, s)
        && values_low(&s.values, c)
        && estimates_low(&s.processes, c)
}
