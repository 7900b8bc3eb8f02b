// The tests of the calls for short lists (02, wish 12): those of both calls, and whether the given list is legal.
#![tactic(auto)]

mod search;

ghost use Rattle.std.specs.Prelude.{◌≡◌, IfOk};
ghost use Rattle.model.specs.Answers.{code};
ghost use Rattle.model.specs.Refusal.{refusal};
ghost use Rattle.model_short.specs.Calls.{raws_at, first_tests, given_tests};
ghost use Rattle.model_short_laws.specs.Choosing.{legal_from};
ghost use Rattle.sheet_short_refusal.specs.Searches.{Begun, Follows};

use model::{Counts, Refusal};
use model_short::RawEntry;
pub use search::Search;

// "1 for a seat count other than 1 or 2, 17 for a length over 6, 15 for a buffer not 6 times the length".
// Kept: three parameters, here and below, as those of `sheet_short::first` and `next`.
#[tactic(auto, using(model_short_laws::specs::Numbers::tests_few, model_short_laws::specs::Numbers::tests_many, model_short_laws::specs::Numbers::tests_long, model_short_laws::specs::Numbers::tests_buffer, model_short_laws::specs::Numbers::tests_none))]
pub fn call_refusal(n: usize, length: usize, buffer: &[u8]) -> Result<(), Refusal>
    ensures { code result ≡ refusal (first_tests n length buffer.now) }
{
    if n < 1 || 2 < n {
        return Err(Refusal::BadProcessCount);
    }
    if 6 < length {
        return Err(Refusal::BadCuts);
    }
    if buffer.len() != 6 * length {
        return Err(Refusal::BadBuffer);
    }
    Ok(())
}

// Here and not in the struct's file: a struct with a ghost field imports each `ghost use` of its file, and `Begun` and `Follows` import it.
impl Search {
    // The search that begins in "a fresh session", "with L at its least". 1, 17, 15, as above.
    #[tactic(auto, using(model_short_laws::specs::Machine::met_fresh, model_short_laws::specs::Numbers::call_fits, model_short_laws::specs::Numbers::one_or_two), unfolding(model::specs::Window::window, model::specs::Board::opened))]
    pub fn start(n: usize, length: usize, buffer: &[u8]) -> Result<Search, Refusal>
        ensures tests { code result ≡ refusal (first_tests n length buffer.now) }
        ensures begins { IfOk result (λ t. Begun n length t) }
    {
        call_refusal(n, length, buffer)?;
        let few = n as u8;
        Ok(Search {
            n: few,
            left: length,
            at: 0,
            session: session_opened::opened(n, part_window::window(few)),
            counts: Counts::default(),
        })
    }

    // The search that goes on behind an entry: none where the session refuses it or no entry is left.
    // Kept: an arm that returns. As a value the answer is copied once more (docs/BENCHMARKS.md has the times, measured side by side).
    #[tactic(auto, using(model_laws::specs::Answers::number_some, model_short_laws::specs::Machine::applied))]
    pub fn after(&self, x: RawEntry) -> Option<Search>
        ensures { Follows self.now x result }
    {
        if self.left == 0 {
            return None;
        }
        match session_entry::apply(self.session, self.counts, x.kind, x.process, x.value) {
            Ok(left) => Some(Search {
                n: self.n,
                left: self.left - 1,
                at: self.at + 6,
                session: left.state,
                counts: left.counts,
            }),
            Err(_) => return None,
        }
    }
}

// Whether the entries that are left in the buffer are legal, one after the other.
#[tactic(auto, using(crate::specs::Legal::legal_end, crate::specs::Legal::legal_no_choice, crate::specs::Legal::search_ends))]
fn legal(search: &Search, buffer: &[u8]) -> bool
    ensures { result
        ≡ legal_from search.now.n search.now.session search.now.counts (raws_at buffer.now search.now.at search.now.left) }
{
    if search.left == 0 {
        return true;
    }
    let x = part_raw_entry::raw_at(buffer, search.at);
    if 5 * (search.n as usize) <= part_raw_entry::number_of(search.n, x) {
        return false;
    }
    match search.after(x) {
        Some(rest) => legal(&rest, buffer),
        None => false,
    }
}

// Then 20, "the given list is not legal": from "a fresh session", "with L at its least".
#[tactic(auto, using(model_laws::specs::Answers::number_some, model_short_laws::specs::Numbers::given_refused, crate::specs::Legal::begun_yes, crate::specs::Legal::begun_no))]
pub fn given_refusal(n: usize, length: usize, buffer: &[u8]) -> Result<(), Refusal>
    ensures { code result ≡ refusal (given_tests n length buffer.now) }
{
    let search = Search::start(n, length, buffer)?;
    if legal(&search, buffer) {
        Ok(())
    } else {
        Err(Refusal::IllegalList)
    }
}
