// When a house is sound (document 02, wish 11): the test that every call on a house makes first.
#![tactic(auto)]

ghost use Rattle.std.specs.Prelude.{◌<◌, true, ◌≡◌};
ghost use Rattle.std.specs.List.{list_all};
ghost use Rattle.model_house.specs.House.{all_below};
ghost use Rattle.model_house.specs.Sound.{sound_ward, sound_vote, sound_wards, sound_worker, sound_house};

use model::Session;
use model_house::House;
use system_house_board_sound::{vote_sound, ward_sound};
use system_house_parts::{numbers_sound, seats_fit, ward_seats};
use system_house_wards::{allowed, seat_of};

// 02, wish 11: "a session .. unsound, closed or of another size".
fn sessions_sound(seats: usize, sessions: &[Session]) -> bool
    ensures { result ≡ list_all (sound_ward seats) sessions.now }
{
    sessions.iter().all(|s| ward_sound(seats, *s))
}

// 02, wish 11: "a .. poll unsound, closed or of another size, a poll number above c".
fn polls_sound(n: usize, c: usize, polls: &[Session]) -> bool
    ensures { result ≡ list_all (sound_vote n c) polls.now }
{
    polls.iter().all(|s| vote_sound(n, c, *s))
}

// 02, wish 11: "an outer round not 1 to 8, a proposed worker without a value, or a seat not .. as a working worker's next turn needs".
#[tactic(auto, using(base::specs::Arrays::length_mapped, model_house_laws::specs::Sounds::few_workers, model_house_laws::specs::Sounds::wards_facts, model_house_laws::specs::Sounds::ward_range, model_house_laws::specs::Sounds::seat_low, model_house_laws::specs::Sounds::outer_range, model_house_laws::specs::Sounds::worker_numbers_fail, model_house_laws::specs::Sounds::worker_told), unfolding(model_house::specs::Sound::sound_worker))]
fn worker_sound(h: &House, p: usize) -> bool
    requires wards { sound_wards h.now ≡ true }
    requires low { p < h.now.n }
    ensures { result ≡ sound_worker h.now p }
{
    let q = h.workers[p];
    if !numbers_sound(q) {
        return false;
    }
    let r = q.outer - 1;
    let k = 8 * (usize::from(h.wards[p]) - 1) + r;
    let seat = seat_of(h.wards, p);
    seats_fit(
        q.stance,
        h.sessions[k].processes[seat],
        h.polls[r].processes[p],
    )
}

// Each of the workers.
fn workers_sound(h: &House) -> bool
    requires { sound_wards h.now ≡ true }
    ensures { result ≡ all_below h.now.n (sound_worker h.now) }
{
    (0..h.n).all(|p| worker_sound(h, p))
}

// 02, wish 11: "wards not as opening allows".
#[tactic(auto, unfolding(model_house::specs::Sound::sound_wards))]
fn wards_sound(h: &House) -> bool
    ensures { result ≡ sound_wards h.now }
{
    1 <= h.n && allowed(h.c, h.n, h.wards)
}

// The wards, the sessions of wards 1 to c, the polls, and the workers, each with the seats that its next turn needs.
#[tactic(auto, using(base::specs::Arrays::length_mapped, model_house_laws::specs::Sounds::few_wards, model_house_laws::specs::Sounds::house_told))]
pub fn sound(h: House) -> bool
    ensures { result ≡ sound_house h }
{
    let n = h.n;
    let c = h.c;
    wards_sound(&h)
        && sessions_sound(ward_seats(n, c), &h.sessions[..8 * c])
        && polls_sound(n, c, &h.polls)
        && workers_sound(&h)
}
