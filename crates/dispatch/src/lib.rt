// The dispatcher: a call serves the first controller of the round that has a message for it which would be delivered
// or dropped.
#![tactic(auto)]

ghost use Rattle.std.specs.Prelude.{◌≡◌, List, ℕ, ◌+◌, ◌≤◌, ◌<◌};
ghost use Rattle.table.specs.Layout.{controllers};
ghost use Rattle.table.specs.Words.{state};
ghost use Rattle.rules.specs.Limits.{house};
ghost use Rattle.rules.specs.Form.{state_released};
ghost use Rattle.rules.specs.Dispatch.{goes, dispatched};
ghost use Rattle.rules.specs.Refused.{answer_of};
ghost use Rattle.rules.specs.Step.{out, written, out_both, dispatch, step_call};
ghost use Rattle.laws.specs.Allowed.{MessageAllowed};
ghost use Rattle.laws.specs.Answering.{Lent};
ghost use Rattle.laws.specs.Round.{Turn};
ghost use Rattle.dispatch.specs.Round.{Round};
ghost use Rattle.dispatch.specs.Searching.{turns_before, Next, Best, Serves, Chosen};

use rules::{Answer, Prospect, Refusal};
use table::{Status, Table};

// Whom a call would serve, as far as it has looked: the turn of the controller in the round, the record of its message,
// and what would come of that.
#[derive(Clone, Copy)]
pub struct Candidate {
    pub turn: usize,
    pub r: usize,
    pub comes: Prospect,
}

// The round of a call: the n controllers, one turn each, beginning with `from`.
#[derive(Clone, Copy)]
struct Turns {
    from: usize,
    n: usize,
    ghost from_lt: { from < n },
    ghost n_le: { n ≤ controllers },
}

impl Turns {
    // The turn of controller c.
    fn of(self, c: usize) -> usize
        requires { c < self.n }
        ensures { Turn self.from self.n c result }
    {
        if self.from <= c {
            return c - self.from;
        }
        c + self.n - self.from
    }

    // How many turns come before that of the candidate: all n, where there is nobody yet.
    fn ahead_of(self, best: Option<Candidate>) -> usize
        ensures { result ≡ turns_before self.n best }
    {
        match best {
            None => self.n,
            Some(b) => b.turn,
        }
    }
}

// Whether a message would be delivered or dropped.
fn goes(p: Prospect) -> bool
    ensures { result ≡ goes p }
{
    matches!(p, Prospect::WouldDrop(_, _) | Prospect::WouldBegin)
}

// The first record from `low` on whose message is released. Most messages of a house were delivered long ago, and a
// call goes past them here.
fn next_released(t: &Table, low: usize) -> Option<usize>
    requires { Lent t.now }
    ensures { Next (state t.now) low result }
{
    let used = table::records_used(t) as usize;
    for r in low..used {
        if table::message_state(t, r) == Status::Released as u32 {
            return Some(r);
        }
    }
    None
}

// The candidate after a look at record r, whose message is released: that message, where its receiver has an earlier
// turn and it would go. What would come of it is asked last.
fn better(t: &Table, turns: Turns, best: Option<Candidate>, r: usize) -> Option<Candidate>
    requires { Lent t.now × Round (state t.now) turns.from turns.n × MessageAllowed (state t.now) r state_released × Best (state t.now) turns.n r best }
    ensures { Best (state t.now) turns.n (r + 1) result }
{
    let i = turns.of(table::receiver(t, r) as usize);
    if turns.ahead_of(best) <= i {
        return best;
    }
    let p = delivery::prospect(t, r);
    if !goes(p) {
        return best;
    }
    Some(Candidate {
        turn: i,
        r,
        comes: p,
    })
}

// Whom a call serves: one pass over the records in use, which ends where the first controller of the round has a
// message.
fn search(t: &Table, turns: Turns) -> Option<Candidate>
    requires { Lent t.now × Round (state t.now) turns.from turns.n }
    ensures { Chosen (state t.now) result }
{
    let mut best = None;
    let mut low = 0;
    while let Some(r) = next_released(t, low) {
        best = better(t, turns, best, r);
        if turns.ahead_of(best) == 0 {
            return best;
        }
        low = r + 1;
    }
    best
}

// Of the message in record r comes p, and its receiver is kept as the one served last.
fn serve(t: &mut Table, r: usize, p: Prospect) -> Result<Answer, Refusal>
    requires { Serves (state t.old) r p }
    ensures { out (answer_of result) t.new ≡ written (dispatched house (state t.old)) }
{
    let c = table::receiver(t, r);
    let m = table::message_of(t, r);
    let a = delivery::come_of(t, m, r, p);
    table::set_served(t, c);
    a
}

// The call on a table in form.
fn dispatch_formed(t: &mut Table) -> Result<Answer, Refusal>
    requires { Lent t.old }
    ensures { out (answer_of result) t.new ≡ written (dispatched house (state t.old)) }
{
    let n = table::size(t) as usize;
    let from = (table::served(t) as usize + 1) % n;
    let Some(best) = search(t, Turns { from, n }) else {
        return Ok(Answer::Idle);
    };
    serve(t, best.r, best.comes)
}

// The call over any lent table: refused, or answered.
fn dispatch_on(t: &mut [u32]) -> Result<Answer, Refusal>
    ensures { (g : List ℕ) → out_both (answer_of result) t.new g ≡ step_call t.old g dispatch }
{
    let Some(t) = t.as_mut_array() else {
        return Err(Refusal::Length);
    };
    if !form::in_form(t) {
        return Err(Refusal::Form);
    }
    dispatch_formed(t)
}

// One call of the dispatcher, over any lent table and with whatever ledger: it doesn't look at it.
pub fn dispatch(t: &mut [u32]) -> Answer
    ensures { (g : List ℕ) → out_both result t.new g ≡ step_call t.old g dispatch }
{
    Answer::from(dispatch_on(t))
}
