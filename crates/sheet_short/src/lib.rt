// Every short sheet there is (02, wish 12): the first legal list of a length, and the one after a given one.
#![tactic(auto)]

ghost use Rattle.std.specs.Prelude.{◌+◌, ◌-◌, ◌≤◌, ◌≡◌};
ghost use Rattle.model.specs.Answers.{code};
ghost use Rattle.model_short.specs.Calls.{raws_at, listed, first_result, next_result};
ghost use Rattle.sheet_short.specs.Cycle.{Chosen, entry_lists, rest_lists};

use model::Refusal;
use sheet_short_refusal::Search;

// The choice of an entry: stores the first legal list of the entries that are left that begins with entry number e or a later one, and
// tells whether there is one. If it is `tight`, lists that begin with entry number e must come after the one that stands there.
#[cycle(choose_entry_choose_rest)]
fn choose_entry(search: &Search, e: usize, tight: bool, buffer: &mut [u8]) -> bool
    requires { 1 ≤ search.now.left }
    ensures { Chosen (entry_lists search.now.n (search.now.left - 1) e tight (raws_at buffer.old (search.now.at + 6)
        (search.now.left - 1)) search.now.session search.now.counts) buffer.old buffer.new search.now.at result }
{
    if 5 * (search.n as usize) <= e {
        return false;
    }
    let x = part_raw_entry::choice(search.n, e);
    match search.after(x) {
        None => choose_entry(search, e + 1, false, buffer),
        Some(rest) => {
            if choose_rest(&rest, tight, buffer) {
                part_raw_entry::put_raw(buffer, search.at, x);
                true
            } else {
                choose_entry(search, e + 1, false, buffer)
            }
        }
    }
}

// The choice of the rest: stores the first legal list of the entries that are left, or, if it is `tight`, the first that comes after the one
// that stands there, and tells whether there is one.
#[cycle(choose_entry_choose_rest)]
fn choose_rest(search: &Search, tight: bool, buffer: &mut [u8]) -> bool
    ensures { Chosen (rest_lists search.now.n search.now.left tight (raws_at buffer.old search.now.at search.now.left)
        search.now.session search.now.counts) buffer.old buffer.new search.now.at result }
{
    if search.left == 0 {
        return !tight;
    }
    if tight {
        let e = part_raw_entry::number_of(search.n, part_raw_entry::raw_at(buffer, search.at));
        return choose_entry(search, e, true, buffer);
    }
    choose_entry(search, 0, false, buffer)
}

// "Asked for the first, it writes that." 1, 17, 15.
// Kept: three parameters, here and below, since theorems speak of these contracts (`short_first_contract`, `short_next_contract`).
#[tactic(auto, using(model_short_laws::specs::Numbers::refused_result), unfolding(model_short::specs::Calls::first_result))]
pub fn first(n: usize, length: usize, buffer: &mut [u8]) -> Result<(), Refusal>
    ensures { listed (code result) buffer.new ≡ first_result n length buffer.old }
{
    let search = Search::start(n, length, buffer)?;
    choose_rest(&search, false, buffer);
    Ok(())
}

// "Given a legal list in a buffer, the builder writes the next of that length over it." 1, 17, 15, 20, 21.
#[tactic(auto, using(model_laws::specs::Answers::number_some, model_short_laws::specs::Numbers::given_refused, crate::specs::Ends::next_refuses))]
pub fn next(n: usize, length: usize, buffer: &mut [u8]) -> Result<(), Refusal>
    ensures { listed (code result) buffer.new ≡ next_result n length buffer.old }
{
    sheet_short_refusal::given_refusal(n, length, buffer)?;
    let search = Search::start(n, length, buffer)?;
    if choose_rest(&search, true, buffer) {
        Ok(())
    } else {
        Err(Refusal::LastList)
    }
}
