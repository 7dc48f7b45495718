// The step X: a crash.
#![tactic(auto)]

ghost use Rattle.std.specs.Prelude.{◌≡◌};
ghost use Rattle.base.specs.Cases.{first_of};
ghost use Rattle.table.specs.Field.{StableCount};
ghost use Rattle.table.specs.Words.{state, words};
ghost use Rattle.rules.specs.Limits.{house};
ghost use Rattle.rules.specs.Refused.{refusal_of, answer_of};
ghost use Rattle.rules.specs.Steps.{crash_refusals, crashed, step_crash};
ghost use Rattle.rules.specs.Step.{out, written};
ghost use Rattle.laws.specs.Answering.{Lent};
ghost use Rattle.laws.specs.Chain.{Starts};
ghost use Rattle.crash.specs.Crashing.{Crashes};

use rules::{Answer, Refusal};
use table::{Table, layout};

// What refuses X c.
pub fn check_crash(t: &Table, c: u32) -> Result<(), Refusal>
    requires { Lent t.now }
    ensures { refusal_of result ≡ first_of (crash_refusals house (state t.now) c) }
{
    if table::size(t) <= c {
        return Err(Refusal::Controller);
    }
    if interval::no_place(t, c as usize, table::stable_count(t, c as usize)) {
        return Err(Refusal::PlacesUsedUp);
    }
    if layout::LAST_INCARNATION <= table::incarnation(t, c as usize) {
        return Err(Refusal::IncarnationsUsedUp);
    }
    Ok(())
}

// The intervals of c that are not stable are lost. c's own end word is written first: their causes are judged by it
// too.
pub fn lose(t: &mut Table, c: usize)
    requires { Starts (state t.old) c (state t.old (StableCount c)) }
    ensures { t.new ≡ words (crashed (state t.old) c) }
{
    let i = table::incarnation(t, c) as usize;
    let k = table::stable_count(t, c);
    let x = table::number_of(t, c, k);
    table::set_end(t, c, c, i, x);
    restart::remove_intervals(t, c, k);
}

// X c, where none of its refusals applies.
pub fn crash_controller(t: &mut Table, c: usize) -> Answer
    requires { Crashes t.old c }
    ensures { out result t.new ≡ written (step_crash house (state t.old) c) }
{
    let i = table::incarnation(t, c);
    let live = table::live_count(t, c);
    let k = table::stable_count(t, c);
    let x = table::number_of(t, c, k);
    let again = checkpoint::replay(t, c, k);
    lose(t, c);
    Answer::Crashed(c as u32, i, x, live - k, again)
}

// X c, on a table in form.
pub fn crash(t: &mut Table, c: u32) -> Result<Answer, Refusal>
    requires { Lent t.old }
    ensures { out (answer_of result) t.new ≡ written (step_crash house (state t.old) c) }
{
    check_crash(t, c)?;
    Ok(crash_controller(t, c as usize))
}
