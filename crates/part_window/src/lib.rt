// The window of a number of processes.
#![tactic(auto)]

ghost use Rattle.std.specs.Prelude.{◌≡◌};
ghost use Rattle.model.specs.Window.{window as window_of};

// 02, wish 8, in place of 01's: the window of n processes is "the smallest whole number with W times W at least 4n". Wish 4: "Work out the
// rounded-up root by adding odd numbers, without a product". `square` is the sum of the first `root` odd numbers, and `odd` is the next:
// `root` ends as the least whose square is at least `end`, which is 4n.
#[tactic(auto, using(base::specs::Squares::odd_sum_next, crate::proofs::Root::root_found, crate::proofs::Root::root_below, crate::proofs::Root::root_above), unfolding(base::specs::Squares::odd_sum, model::specs::Window::root_from, model::specs::Window::root_up, model::specs::Window::window))]
pub fn window(n: u8) -> usize
    ensures { result ≡ window_of n }
{
    let once = n as usize;
    let twice = once + once;
    let end = twice + twice;
    let mut root: usize = 0;
    let mut square: usize = 0;
    let mut odd: usize = 1;
    // Kept: no index is counted, and 02 names this way to the root.
    while square < end {
        square += odd;
        odd += 2;
        root += 1;
    }
    root
}
