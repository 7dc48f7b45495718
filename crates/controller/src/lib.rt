// The steps on one controller's own words: its degree, logging, checkpoints, and what it tells of its progress.
#![tactic(auto)]

ghost use Rattle.std.specs.Prelude.{◌≡◌, ◌+◌, ◌-◌, ◌≤◌, ◌<◌};
ghost use Rattle.base.specs.Cases.{first_of};
ghost use Rattle.table.specs.Field.{LiveCount, StableCount};
ghost use Rattle.table.specs.Layout.{controllers};
ghost use Rattle.table.specs.Words.{state, words};
ghost use Rattle.rules.specs.Refused.{refusal_of, answer_of};
ghost use Rattle.rules.specs.Shared.{logged};
ghost use Rattle.rules.specs.Steps.{degree_refusals, log_refusals, tell_refusals, told_row, told, step_degree, step_log, step_checkpoint, step_tell};
ghost use Rattle.rules.specs.Step.{out, written};
ghost use Rattle.laws.specs.Answering.{Lent};
ghost use Rattle.laws.specs.Chain.{Counts};

use rules::{Answer, Refusal};
use table::{Table, layout};

// What refuses K c k.
pub fn check_degree(t: &Table, c: u32, k: u32) -> Result<(), Refusal>
    ensures { refusal_of result ≡ first_of (degree_refusals (state t.now) c k) }
{
    let n = table::size(t);
    if n <= c {
        return Err(Refusal::Controller);
    }
    if n < k {
        return Err(Refusal::Degree);
    }
    Ok(())
}

// K c k, on a table in form.
pub fn set_degree(t: &mut Table, c: u32, k: u32) -> Result<Answer, Refusal>
    requires { Lent t.old }
    ensures { out (answer_of result) t.new ≡ written (step_degree (state t.old) c k) }
{
    check_degree(t, c, k)?;
    table::set_degree(t, c as usize, k);
    Ok(Answer::Done)
}

// What refuses L c q.
pub fn check_log(t: &Table, c: u32, q: u32) -> Result<(), Refusal>
    requires { Lent t.now }
    ensures { refusal_of result ≡ first_of (log_refusals (state t.now) c q) }
{
    if table::size(t) <= c {
        return Err(Refusal::Controller);
    }
    let live = table::live_count(t, c as usize);
    let stable = table::stable_count(t, c as usize);
    if (q == 0) | (live - stable < q) {
        return Err(Refusal::LogCount);
    }
    Ok(())
}

// The q oldest live intervals of c that are not stable become so.
pub fn log_oldest(t: &mut Table, c: usize, q: u32)
    requires { Counts (state t.old) c × (state t.old (StableCount c) + q ≤ state t.old (LiveCount c)) }
    ensures { t.new ≡ words (logged (state t.old) c (state t.old (StableCount c) + q)) }
{
    let stable = table::stable_count(t, c);
    checkpoint::log_to(t, c, stable + q);
}

// L c q, on a table in form.
pub fn log(t: &mut Table, c: u32, q: u32) -> Result<Answer, Refusal>
    requires { Lent t.old }
    ensures { out (answer_of result) t.new ≡ written (step_log (state t.old) c q) }
{
    check_log(t, c, q)?;
    log_oldest(t, c as usize, q);
    Ok(Answer::Done)
}

// C c, on a table in form.
pub fn checkpoint(t: &mut Table, c: u32) -> Result<Answer, Refusal>
    requires { Lent t.old }
    ensures { out (answer_of result) t.new ≡ written (step_checkpoint (state t.old) c) }
{
    if table::size(t) <= c {
        Err(Refusal::Controller)
    } else {
        checkpoint::flag_newest(t, c as usize);
        Ok(Answer::Done)
    }
}

// What the holder knows of the owner once the owner has told it: for each incarnation the larger of the holder's word
// and the owner's own.
pub fn told_row(t: &Table, owner: usize, holder: usize) -> [u32; layout::INCARNATIONS]
    requires { (owner < controllers) × (holder < controllers) }
    ensures { result ≡ told_row (state t.now) owner holder }
{
    let mut row = [0u32; layout::INCARNATIONS];
    for i in 0..layout::INCARNATIONS {
        let theirs = table::known(t, holder, owner, i);
        let own = table::known(t, owner, owner, i);
        row[i] = theirs.max(own);
    }
    row
}

// The holder's row of the owner becomes what it is told.
pub fn store_row(t: &mut Table, owner: usize, holder: usize)
    requires { (owner < controllers) × (holder < controllers) }
    ensures { t.new ≡ words (told (state t.old) owner holder) }
{
    let row = told_row(t, owner, holder);
    let from = table::known_row_at(holder, owner);
    let to = from + layout::INCARNATIONS;
    table::copy_words(&mut t[from..to], &row);
}

// What refuses T a b, the owner and the holder.
pub fn check_tell(t: &Table, owner: u32, holder: u32) -> Result<(), Refusal>
    ensures { refusal_of result ≡ first_of (tell_refusals (state t.now) owner holder) }
{
    let n = table::size(t);
    if (n <= owner) | (n <= holder) {
        return Err(Refusal::Controller);
    }
    if owner == holder {
        return Err(Refusal::SameController);
    }
    Ok(())
}

// T a b, the owner and the holder, on a table in form.
pub fn tell(t: &mut Table, owner: u32, holder: u32) -> Result<Answer, Refusal>
    requires { Lent t.old }
    ensures { out (answer_of result) t.new ≡ written (step_tell (state t.old) owner holder) }
{
    check_tell(t, owner, holder)?;
    store_row(t, owner as usize, holder as usize);
    Ok(Answer::Done)
}
