// One step of a house over its lent table and its lent ledger.
#![tactic(auto)]

ghost use Rattle.std.specs.Prelude.{◌≡◌, false, List, ℕ, MatchResult};
ghost use Rattle.table.specs.Words.{state};
ghost use Rattle.rules.specs.Limits.{house};
ghost use Rattle.rules.specs.Refused.{number, answer_of};
ghost use Rattle.rules.specs.Step.{out_both, written_both, looks_at_form, perform, step};
ghost use Rattle.rules.specs.declared.Answer.TheVariants.{Refused};
ghost use Rattle.laws.specs.Answering.{LentFor};
ghost use Rattle.laws.specs.Beside.{looks_at_ledger};

use rules::{Answer, Command, Refusal};
use table::Table;

// Whether a step looks at the form of the table: all but the opening do.
pub fn looks_at_form(x: Command) -> bool
    ensures { result ≡ looks_at_form x }
{
    !matches!(x, Command::Open(_, _))
}

// A step after the host's refusals of the table, which is in form where the step looks at that. Only the opening and
// the release look at the ledger.
#[tactic(auto, using(laws::specs::Answering::by_command, laws::specs::Answering::left_beside, laws::specs::Answering::lent_as), unfolding(rules::specs::Step::perform))]
pub fn perform(t: &mut Table, g: &mut [u32], x: Command) -> Result<Answer, Refusal>
    requires { LentFor t.old x }
    ensures { out_both (answer_of result) t.new g.new ≡ written_both (perform house (state t.old) g.old x) }
{
    match x {
        Command::Open(n, k) => opening::open(t, g, n, k),
        Command::SetDegree(c, k) => controller::set_degree(t, c, k),
        Command::Send(sender, receiver, payload) => message::send(t, sender, receiver, payload),
        Command::Release(m) => release::release(t, g, m),
        Command::Deliver(m) => delivery::deliver(t, m),
        Command::Log(c, q) => controller::log(t, c, q),
        Command::Checkpoint(c) => controller::checkpoint(t, c),
        Command::Tell(owner, holder) => controller::tell(t, owner, holder),
        Command::Crash(c) => crash::crash(t, c),
        Command::Hear(hearer, owner, i) => hearing::hear(t, hearer, owner, i),
        Command::SetGap(q) => checkpoint::set_gap(t, q),
    }
}

// Whether the table is in form, where the step looks at that.
fn check_form(t: &Table, x: Command) -> Result<(), Refusal>
    ensures { MatchResult result (λ _. LentFor t.now x) (λ refusal. (g : List ℕ) → out_both (Refused (number refusal)) t.now g ≡ step t.now g x) }
{
    if looks_at_form(x) && !form::in_form(t) {
        return Err(Refusal::Form);
    }
    Ok(())
}

// A step on any lent table, with the host's refusals of it.
fn step_lent(t: &mut [u32], g: &mut [u32], x: Command) -> Result<Answer, Refusal>
    ensures { out_both (answer_of result) t.new g.new ≡ step t.old g.old x }
{
    let Some(t) = t.as_mut_array() else {
        return Err(Refusal::Length);
    };
    check_form(t, x)?;
    perform(t, g, x)
}

// The step function, for every table and every ledger lent and all numbers.
pub fn step(t: &mut [u32], g: &mut [u32], x: Command) -> Answer
    ensures { out_both result t.new g.new ≡ step t.old g.old x }
{
    Answer::from(step_lent(t, g, x))
}

// A step that doesn't look at the ledger, for a caller that has none at hand: it is done beside an empty one, and
// would be the same beside any other.
fn step_alone(t: &mut [u32], x: Command) -> Answer
    requires { looks_at_ledger x ≡ false }
    ensures { (g : List ℕ) → out_both result t.new g ≡ step t.old g x }
{
    step(t, &mut [], x)
}

// Each step by itself.
pub fn open(t: &mut [u32], g: &mut [u32], n: u32, k: u32) -> Answer
    ensures { out_both result t.new g.new ≡ step t.old g.old (Command.Open n k) }
{
    step(t, g, Command::Open(n, k))
}

pub fn release(t: &mut [u32], g: &mut [u32], m: u32) -> Answer
    ensures { out_both result t.new g.new ≡ step t.old g.old (Command.Release m) }
{
    step(t, g, Command::Release(m))
}

// The nine others, with whatever ledger: they don't look at it.
pub fn set_degree(t: &mut [u32], c: u32, k: u32) -> Answer
    ensures { (g : List ℕ) → out_both result t.new g ≡ step t.old g (Command.SetDegree c k) }
{
    step_alone(t, Command::SetDegree(c, k))
}

pub fn send(t: &mut [u32], sender: u32, receiver: u32, payload: u32) -> Answer
    ensures { (g : List ℕ) → out_both result t.new g ≡ step t.old g (Command.Send sender receiver payload) }
{
    step_alone(t, Command::Send(sender, receiver, payload))
}

pub fn deliver(t: &mut [u32], m: u32) -> Answer
    ensures { (g : List ℕ) → out_both result t.new g ≡ step t.old g (Command.Deliver m) }
{
    step_alone(t, Command::Deliver(m))
}

pub fn log(t: &mut [u32], c: u32, q: u32) -> Answer
    ensures { (g : List ℕ) → out_both result t.new g ≡ step t.old g (Command.Log c q) }
{
    step_alone(t, Command::Log(c, q))
}

pub fn checkpoint(t: &mut [u32], c: u32) -> Answer
    ensures { (g : List ℕ) → out_both result t.new g ≡ step t.old g (Command.Checkpoint c) }
{
    step_alone(t, Command::Checkpoint(c))
}

pub fn tell(t: &mut [u32], owner: u32, holder: u32) -> Answer
    ensures { (g : List ℕ) → out_both result t.new g ≡ step t.old g (Command.Tell owner holder) }
{
    step_alone(t, Command::Tell(owner, holder))
}

pub fn crash(t: &mut [u32], c: u32) -> Answer
    ensures { (g : List ℕ) → out_both result t.new g ≡ step t.old g (Command.Crash c) }
{
    step_alone(t, Command::Crash(c))
}

pub fn hear(t: &mut [u32], hearer: u32, owner: u32, i: u32) -> Answer
    ensures { (g : List ℕ) → out_both result t.new g ≡ step t.old g (Command.Hear hearer owner i) }
{
    step_alone(t, Command::Hear(hearer, owner, i))
}

pub fn set_gap(t: &mut [u32], q: u32) -> Answer
    ensures { (g : List ℕ) → out_both result t.new g ≡ step t.old g (Command.SetGap q) }
{
    step_alone(t, Command::SetGap(q))
}
