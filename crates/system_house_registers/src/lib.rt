// The turns of a worker at the registers that are the house's own (document 02, wish 11): the value table and the decision register. Each
// counts one register operation. With a full tally nothing changes.
// Kept: that is said in three clauses, since no public function of this project has a `requires`, and a view with a full tally is one too.
#![tactic(auto)]

ghost use Rattle.std.specs.Prelude.{ℕ, ◌≡◌, Bool, cond};
ghost use Rattle.model.specs.Refusal.{full as full_of};
ghost use Rattle.model_poll.specs.Turn.{answer_of};
ghost use Rattle.model_house.specs.House.{table_at};
ghost use Rattle.model_house.specs.Turn.{round_over as round_over_of, taken, after_read as after_read_of, turn_at};

use model::{Access, Process};
use model_house::{Place, Stance, Table, View, Worker};
use model_poll::Answer;
use part_counts::{counted, full};
use system_house_parts::seat;
use system_house_table::{entry, written};

// "Either way the next outer round follows"; "a worker becomes spent in the turn that ends outer round 8".
fn round_over(outer: usize, value: u32) -> Worker
    ensures { result ≡ round_over_of outer value }
{
    if outer < 8 {
        return Worker {
            stance: Stance::Working(Place::ProposeWard),
            outer: outer + 1,
            value,
        };
    }
    Worker {
        stance: Stance::Exhausted,
        outer,
        value,
    }
}

// It "takes that value"; "a blank table entry leaves the value". u is the answer's ward.
fn value_read(t: Table, q: Worker, u: u32) -> u32
    ensures { result ≡ taken (table_at t q.outer u) q.value }
{
    let x = entry(t, q.outer, u as usize);
    if x == 0 { q.value } else { x }
}

// "Committed, it then writes the house's own decision register; either way the next outer round follows."
fn after_read(t: Table, q: Worker, seat: Process) -> Worker
    ensures { result ≡ after_read_of t q (answer_of seat) }
{
    match part_poll::answer(seat) {
        Answer::Pending => q,
        Answer::Commits(u) => Worker {
            stance: Stance::Working(Place::WriteHouse),
            value: value_read(t, q, u),
            ..q
        },
        Answer::Adopts(u) => round_over(q.outer, value_read(t, q, u)),
    }
}

// It "writes the decision to the table": the number that its ward seat s holds, at its ward w.
#[tactic(auto, unfolding(model::specs::Refusal::full, model::specs::Step::counted, model_house::specs::Turn::turn_at))]
pub fn write_table(v: View, w: usize, s: usize) -> View
    ensures { (p : ℕ) (hint : Bool) → result ≡ cond (full_of v.counts) v (turn_at p w s hint Place.WriteTable v) }
{
    if full(v.counts) {
        return v;
    }
    let decided = seat(v.session, s);
    let q = v.worker;
    View {
        table: written(v.table, q.outer, w, decided.estimate),
        worker: Worker {
            stance: Stance::Working(Place::ProposePoll),
            ..q
        },
        counts: counted(Access::WriteDecision, 0, v.counts),
        ..v
    }
}

// It "reads the table at the answer's ward": the answer of its poll seat p.
#[tactic(auto, unfolding(model::specs::Refusal::full, model_house::specs::Turn::turn_at))]
pub fn read_table(v: View, p: usize) -> View
    ensures { (w s : ℕ) (hint : Bool) → result ≡ cond (full_of v.counts) v (turn_at p w s hint Place.ReadTable v) }
{
    if full(v.counts) {
        return v;
    }
    View {
        worker: after_read(v.table, v.worker, seat(v.poll, p)),
        counts: counted(Access::ReadDecision, 0, v.counts),
        ..v
    }
}

// It "writes the house's own decision register": its value.
#[tactic(auto, unfolding(model::specs::Refusal::full, model_house::specs::Turn::turn_at))]
pub fn write_house(v: View) -> View
    ensures { (p w s : ℕ) (hint : Bool) → result ≡ cond (full_of v.counts) v (turn_at p w s hint Place.WriteHouse v) }
{
    if full(v.counts) {
        return v;
    }
    let q = v.worker;
    View {
        decision: q.value,
        worker: round_over(q.outer, q.value),
        counts: counted(Access::WriteDecision, 0, v.counts),
        ..v
    }
}
