// The step that lets a held message out, if few enough controllers can revoke it: release. One for the desk is
// published: it goes out only if no controller can, and gets an entry in the ledger.
#![tactic(auto)]

ghost use Rattle.std.specs.Prelude.{◌≡◌, ◌&&◌, ◌<◌};
ghost use Rattle.base.specs.Cases.{first_of};
ghost use Rattle.base.specs.Choice.{◌≤?◌};
ghost use Rattle.table.specs.Field.{OfMessage, message_head};
ghost use Rattle.table.specs.Change.{put_part};
ghost use Rattle.table.specs.Layout.{messages};
ghost use Rattle.table.specs.Words.{state, words};
ghost use Rattle.rules.specs.Limits.{house, last_entry};
ghost use Rattle.rules.specs.Vector.{flat};
ghost use Rattle.rules.specs.Form.{state_published, for_desk};
ghost use Rattle.rules.specs.Ledger.{count_of, entry_of, appended};
ghost use Rattle.rules.specs.Steps.{own_vector, let_out, gone, ledger_out, may_go, release, release_refusals, step_release};
ghost use Rattle.rules.specs.Step.{out_both, written_both};
ghost use Rattle.rules.specs.Refused.{refusal_of, answer_of};
ghost use Rattle.laws.specs.Answering.{Lent};
ghost use Rattle.laws.specs.Chain.{Releasable};
ghost use Rattle.release.specs.Releases.{Outgoing};

use ledger::Ledger;
use rules::{Answer, Refusal};
use table::{Status, Table, layout};

// The vector of the message in record r, filtered for its sender.
pub fn own_vector(t: &Table, r: usize) -> vector::Vector
    requires { Releasable (state t.now) r }
    ensures { result ≡ own_vector (state t.now) r }
{
    let sender = table::sender(t, r) as usize;
    let v = vector::message_vector(t, r);
    vector::filter_vector(t, sender, v)
}

// The vector of record r is v; no other word is written.
pub fn store_vector(t: &mut Table, r: usize, v: vector::Vector)
    requires { r < messages }
    ensures { t.new ≡ words (put_part (state t.old) (OfMessage r 0) message_head (flat v)) }
{
    let from = table::message_vector_at(r);
    let to = from + layout::VECTOR_WORDS;
    vector::write_vector(&mut t[from..to], v);
}

// The message in record r goes out with the vector v, and has the state st.
pub fn let_out(t: &mut Table, r: usize, v: vector::Vector, st: u32)
    requires { r < messages }
    ensures { t.new ≡ words (let_out (state t.old) r v st) }
{
    store_vector(t, r, v);
    table::set_message_state(t, r, st);
}

// The message m in record r goes out to the desk with the vector v, and its entry into the ledger.
pub fn publish(t: &mut Table, g: &mut Ledger, m: u32, r: usize, v: vector::Vector)
    requires { (r < messages) × (count_of g.old < last_entry) }
    ensures { (t.new ≡ words (let_out (state t.old) r v state_published)) × (g.new ≡ appended g.old (entry_of (state t.old) m r)) }
{
    let payload = table::payload(t, r);
    let_out(t, r, v, Status::Published as u32);
    ledger::append(g, m, payload);
}

// The message m in record r goes out with its own vector v: published, if it is for the desk.
pub fn go_out(t: &mut Table, g: &mut Ledger, m: u32, r: usize, v: vector::Vector)
    requires { Outgoing t.old g.old r v }
    ensures { (t.new ≡ words (gone (state t.old) r)) × (g.new ≡ ledger_out (state t.old) g.old m r) }
{
    if table::receiver(t, r) == layout::DESK {
        publish(t, g, m, r, v);
        return;
    }
    let_out(t, r, v, Status::Released as u32);
}

// Whether the message in record r may go out with this mask.
pub fn may_go(t: &Table, r: usize, mask: u32) -> bool
    requires { Releasable (state t.now) r }
    ensures { result ≡ may_go (state t.now) r mask }
{
    let sender = table::sender(t, r);
    let receiver = table::receiver(t, r);
    if receiver == layout::DESK {
        return mask == 0;
    }
    vector::within_degree(mask, table::degree(t, sender as usize))
}

// Whether the message in record r is for the desk, and the ledger has no room for its entry.
pub fn no_room(t: &Table, g: &Ledger, r: usize) -> bool
    requires { r < messages }
    ensures { result ≡ (for_desk (state t.now) r && (last_entry ≤? count_of g.now)) }
{
    (table::receiver(t, r) == layout::DESK) & (ledger::ENTRIES as u32 <= ledger::count(g))
}

// R on message m in record r, which its refusals let pass.
pub fn release_record(t: &mut Table, g: &mut Ledger, m: u32, r: usize) -> Result<Answer, Refusal>
    requires { Releasable (state t.old) r }
    ensures { out_both (answer_of result) t.new g.new ≡ written_both (release house (state t.old) g.old m r) }
{
    let v = own_vector(t, r);
    let mask = vector::mask_of(v);
    if !may_go(t, r, mask) {
        return Ok(Answer::Held(m, mask));
    }
    if no_room(t, g, r) {
        return Err(Refusal::LedgerUsedUp);
    }
    go_out(t, g, m, r, v);
    Ok(Answer::Released(m, mask))
}

// What refuses R on the message in record r: the ledger first.
pub fn check_release(t: &Table, g: &[u32], r: usize) -> Result<(), Refusal>
    requires { Lent t.now }
    ensures { refusal_of result ≡ first_of (release_refusals house (state t.now) g.now r) }
{
    if !ledger::is_sound(g) {
        return Err(Refusal::Ledger);
    }
    message::check_message(t, r, Status::Held as u32)
}

// R m, on a table in form.
pub fn release(t: &mut Table, g: &mut [u32], m: u32) -> Result<Answer, Refusal>
    requires { Lent t.old }
    ensures { out_both (answer_of result) t.new g.new ≡ written_both (step_release house (state t.old) g.old m) }
{
    let r = table::find_record(t, m);
    let Some(g) = g.as_mut_array() else {
        return Err(Refusal::Ledger);
    };
    check_release(t, g, r)?;
    release_record(t, g, m, r)
}
