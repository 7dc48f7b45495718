// The step H: hearing of a crash, which may roll the hearer back.
#![tactic(auto)]

ghost use Rattle.std.specs.Prelude.{◌≡◌, ◌<◌};
ghost use Rattle.base.specs.Cases.{first_of};
ghost use Rattle.table.specs.Field.{Known, End};
ghost use Rattle.table.specs.Change.{put};
ghost use Rattle.table.specs.Layout.{controllers, incarnations};
ghost use Rattle.table.specs.Words.{state, words};
ghost use Rattle.rules.specs.Refused.{refusal_of, answer_of};
ghost use Rattle.rules.specs.Shared.{latest_flagged};
ghost use Rattle.rules.specs.Steps.{noted, rolled_back, hear, hear_refusals, step_hear};
ghost use Rattle.rules.specs.Step.{out, written};
ghost use Rattle.laws.specs.Answering.{Lent};
ghost use Rattle.laws.specs.Chain.{Starts};
ghost use Rattle.hearing.specs.Rolling.{undoing};
ghost use Rattle.hearing.specs.Hearing.{Hears};

use rules::{Answer, Refusal};
use table::{Table, layout};

// Who hears of which crash: the one that ended the owner's incarnation.
#[derive(Clone, Copy)]
pub struct Hearing {
    pub hearer: usize,
    pub owner: usize,
    pub incarnation: usize,
    ghost hearer_lt: { hearer < controllers },
    ghost owner_lt: { owner < controllers },
    ghost incarnation_lt: { incarnation < incarnations },
}

// The intervals of the hearer from place k on are undone.
pub fn roll_back(t: &mut Table, hearer: usize, k: u32)
    requires { Starts (state t.old) hearer k }
    ensures { t.new ≡ words (rolled_back (state t.old) hearer k) }
{
    checkpoint::log_rest(t, hearer, k);
    restart::remove_intervals(t, hearer, k);
}

// The same, with the answer to it, which names the crash; `flagged` is the number of the latest checkpoint that is
// kept.
pub fn undo(t: &mut Table, h: Hearing, k: u32, flagged: u32) -> Answer
    requires { Starts (state t.old) h.hearer k × (flagged ≡ latest_flagged (state t.old) h.hearer k) }
    ensures { out result t.new ≡ written (undoing (state t.old) h.hearer h.owner h.incarnation k) }
{
    let live = table::live_count(t, h.hearer);
    let x = table::number_of(t, h.hearer, k);
    let again = x - flagged;
    roll_back(t, h.hearer, k);
    Answer::Rolled(
        h.hearer as u32,
        x,
        live - k,
        again,
        h.owner as u32,
        h.incarnation as u32,
    )
}

// The end word of the owner's incarnation is copied to the hearer, and the hearer's known word is raised to it.
pub fn note(t: &mut Table, h: Hearing)
    ensures { t.new ≡ words (noted (state t.old) h.hearer h.owner h.incarnation) }
{
    let end = table::end(t, h.owner, h.owner, h.incarnation);
    let known = table::known(t, h.hearer, h.owner, h.incarnation);
    table::set_end(t, h.hearer, h.owner, h.incarnation, end);
    if known < end {
        table::set_known(t, h.hearer, h.owner, h.incarnation, end);
    }
}

// The two words get their old values back.
pub fn take_back(t: &mut Table, h: Hearing, known: u32)
    ensures { t.new ≡ words (put (put (state t.old) (End h.hearer h.owner h.incarnation) 0) (Known h.hearer h.owner h.incarnation) known) }
{
    table::set_end(t, h.hearer, h.owner, h.incarnation, 0);
    table::set_known(t, h.hearer, h.owner, h.incarnation, known);
}

// What refuses H before the hearer's places are looked at.
pub fn check_hear(t: &Table, hearer: u32, owner: u32, i: u32) -> Result<(), Refusal>
    requires { Lent t.now }
    ensures { refusal_of result ≡ first_of (hear_refusals (state t.now) hearer owner i) }
{
    let n = table::size(t);
    if (n <= hearer) | (n <= owner) {
        return Err(Refusal::Controller);
    }
    if layout::LAST_INCARNATION < i {
        return Err(Refusal::NoSuchCrash);
    }
    if table::end(t, owner as usize, owner as usize, i as usize) == 0 {
        return Err(Refusal::NoSuchCrash);
    }
    if table::end(t, hearer as usize, owner as usize, i as usize) != 0 {
        return Err(Refusal::AlreadyHeard);
    }
    Ok(())
}

// H, where none of these applies. Where it would have to undo in the last incarnation, the noted words are taken back.
pub fn hear_crash(t: &mut Table, h: Hearing) -> Result<Answer, Refusal>
    requires { Hears t.old h.hearer h.owner h.incarnation }
    ensures { out (answer_of result) t.new ≡ written (hear (state t.old) h.hearer h.owner h.incarnation) }
{
    let known = table::known(t, h.hearer, h.owner, h.incarnation);
    note(t, h);
    let stop = interval::lowest_condemned(t, h.hearer);
    if table::live_count(t, h.hearer) as usize <= stop.place {
        return Ok(Answer::Heard(h.hearer as u32));
    }
    if layout::LAST_INCARNATION <= table::incarnation(t, h.hearer) {
        take_back(t, h, known);
        return Err(Refusal::IncarnationsUsedUp);
    }
    Ok(undo(t, h, stop.place as u32, stop.flagged))
}

// H, on a table in form.
pub fn hear(t: &mut Table, hearer: u32, owner: u32, i: u32) -> Result<Answer, Refusal>
    requires { Lent t.old }
    ensures { out (answer_of result) t.new ≡ written (step_hear (state t.old) hearer owner i) }
{
    check_hear(t, hearer, owner, i)?;
    let h = Hearing {
        hearer: hearer as usize,
        owner: owner as usize,
        incarnation: i as usize,
    };
    hear_crash(t, h)
}
