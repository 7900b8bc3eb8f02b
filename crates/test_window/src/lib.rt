// The window's function as the only one of an archive, so that its compiled code can be seen and called by itself (tests/window.sh).
#![tactic(auto)]

ghost use Rattle.std.specs.Prelude.{◌≡◌};
ghost use Rattle.model.specs.Window.{window as window_of};

// The window of n processes.
#[unsafe(no_mangle)]
pub extern "C" fn window_alone(n: u8) -> usize
    ensures { result ≡ window_of n }
{
    part_window::window(n)
}
