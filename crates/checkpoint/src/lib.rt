// Logging and checkpoints: how much is replayed from the latest one, and the ceiling on it, the gap that can be set.
#![tactic(auto)]

ghost use Rattle.std.specs.Prelude.{◌≡◌, ◌≤◌, ◌<◌};
ghost use Rattle.base.specs.Cases.{first_of};
ghost use Rattle.table.specs.Layout.{controllers, places};
ghost use Rattle.table.specs.Words.{state, words};
ghost use Rattle.table.specs.Numbering.{last_live};
ghost use Rattle.rules.specs.Limits.{last_number};
ghost use Rattle.rules.specs.Refused.{refusal_of, answer_of};
ghost use Rattle.rules.specs.Shared.{logged, logged_to, checkpointed, replayed, forced, capped};
ghost use Rattle.rules.specs.Steps.{gap_refusals, step_gap};
ghost use Rattle.rules.specs.Step.{out, written};
ghost use Rattle.laws.specs.Answering.{Lent};
ghost use Rattle.laws.specs.Chain.{Counts};

use rules::{Answer, Refusal};
use table::{Table, layout};

// The k oldest live intervals of c are stable.
pub fn log_to(t: &mut Table, c: usize, k: u32)
    requires { Counts (state t.old) c × (k ≤ places) }
    ensures { t.new ≡ words (logged (state t.old) c k) }
{
    let i = table::incarnation(t, c) as usize;
    let x = table::number_of(t, c, k);
    table::set_stable_count(t, c, k);
    table::set_known(t, c, c, i, x);
}

// The same, if any of them are not yet stable.
pub fn log_rest(t: &mut Table, c: usize, k: u32)
    requires { Counts (state t.old) c × (k ≤ places) }
    ensures { t.new ≡ words (logged_to (state t.old) c k) }
{
    if table::stable_count(t, c) < k {
        log_to(t, c, k);
    }
}

// All live intervals of c are logged, and its newest place is flagged.
pub fn flag_newest(t: &mut Table, c: usize)
    requires { Counts (state t.old) c }
    ensures { t.new ≡ words (checkpointed (state t.old) c) }
{
    let live = table::live_count(t, c);
    log_rest(t, c, live);
    table::set_flag(t, c, live as usize - 1, 1);
}

// How many intervals are to be replayed after the k-th.
pub fn replay(t: &Table, c: usize, k: u32) -> u32
    requires { (c < controllers) × (k ≤ places) × (last_live (state t.now) c ≤ last_number) }
    ensures { result ≡ replayed (state t.now) c k }
{
    let x = table::number_of(t, c, k);
    let flagged = interval::latest_flagged(t, c, k as usize);
    x - flagged
}

// Whether the newest interval of c stands the gap or more above the latest checkpoint. A gap of 0 is off, and the chain
// is not looked at.
pub fn forced(t: &Table, c: usize) -> bool
    requires { Counts (state t.now) c }
    ensures { result ≡ forced (state t.now) c }
{
    let gap = table::gap(t);
    if gap == 0 {
        return false;
    }
    let live = table::live_count(t, c);
    gap <= replay(t, c, live)
}

// The newest interval of c, which has just begun, is checkpointed if it has to be.
pub fn cap(t: &mut Table, c: usize)
    requires { Counts (state t.old) c }
    ensures { t.new ≡ words (capped (state t.old) c) }
{
    if forced(t, c) {
        flag_newest(t, c);
    }
}

pub fn check_gap(q: u32) -> Result<(), Refusal>
    ensures { refusal_of result ≡ first_of (gap_refusals q) }
{
    if layout::LAST_GAP < q {
        return Err(Refusal::Degree);
    }
    Ok(())
}

// The step that sets the gap, on a table in form.
pub fn set_gap(t: &mut Table, q: u32) -> Result<Answer, Refusal>
    requires { Lent t.old }
    ensures { out (answer_of result) t.new ≡ written (step_gap (state t.old) q) }
{
    check_gap(q)?;
    table::set_gap(t, q);
    Ok(Answer::Done)
}
