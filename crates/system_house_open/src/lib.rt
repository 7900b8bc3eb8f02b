// Opening a house (document 02, wish 11).
#![tactic(auto)]

ghost use Rattle.std.specs.Prelude.{◌≤◌, ◌-◌, ◌≡◌, ◌++◌, length, replicate};
ghost use Rattle.model.specs.Answers.{code};
ghost use Rattle.model.specs.Refusal.{refusal};
ghost use Rattle.model_house.specs.House.{max_workers, house_open_tests, opened_house, told_house_opened, house_opening};

use model::Refusal;
use model_house::{House, Stance, Worker};

// The wards of at most 16 workers, with room for 16.
fn padded(wards: &[u8]) -> [u8; 16]
    requires { length wards.now ≤ max_workers }
    ensures { result ≡ wards.now ++ replicate (max_workers - length wards.now) 0 }
{
    let mut all = [0; 16];
    all[..wards.len()].copy_from_slice(wards);
    all
}

// 02, wish 11: "New 19: c not 1 to 4, over 16 workers, a worker's ward not 1 to c, or an empty ward; at opening, after 1 by the server's
// limits."
#[tactic(auto, unfolding(model_house::specs::House::allowed))]
fn open_refusal(c: usize, wards: &[u8]) -> Result<(), Refusal>
    ensures { code result ≡ refusal (house_open_tests c wards.now) }
{
    let n = wards.len();
    if !(1..=64).contains(&n) {
        return Err(Refusal::BadProcessCount);
    }
    if 16 < n || !system_house_wards::allowed(c, n, padded(wards)) {
        return Err(Refusal::BadWards);
    }
    Ok(())
}

// A house just opened: every session and poll is, table and decision register are blank, no worker has proposed.
#[tactic(auto, unfolding(model::specs::Window::window, model::specs::Board::opened, model_house::specs::House::opened_house))]
fn opened(c: usize, wards: &[u8]) -> House
    requires { length wards.now ≤ max_workers }
    ensures { result ≡ opened_house c wards.now }
{
    let n = wards.len();
    let session = session_opened::opened(system_house_parts::ward_seats(n, c), 64);
    let poll = session_opened::opened(n, part_window::window(n as u8));
    let worker = Worker {
        stance: Stance::Idle,
        outer: 1,
        value: 0,
    };
    House {
        n,
        c,
        wards: padded(wards),
        workers: [worker; 16],
        sessions: [session; 32],
        polls: [poll; 8],
        table: [[0; 4]; 8],
        decision: 0,
    }
}

// The wards of the workers are given in number order. 1, 19. Refused, no house is made.
#[tactic(auto, using(model_house_laws::specs::Told::house_opened_ok, model_house_laws::specs::Told::house_opened_err), unfolding(model_house::specs::House::allowed, model_house::specs::House::house_opening))]
pub fn open(c: usize, wards: &[u8]) -> Result<House, Refusal>
    ensures { told_house_opened result ≡ house_opening c wards.now }
{
    open_refusal(c, wards)?;
    Ok(opened(c, wards))
}
