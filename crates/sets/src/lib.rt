// The call that releases a set: messages of one sender go out together, or all stay held.
#![tactic(auto)]

ghost use Rattle.std.specs.Prelude.{◌≡◌, ◌≤◌, ◌<◌, ◌+◌, length};
ghost use Rattle.base.specs.Cases.{first_of};
ghost use Rattle.table.specs.Words.{state, words};
ghost use Rattle.table.specs.Numbering.{record_of};
ghost use Rattle.rules.specs.Limits.{house, last_entry};
ghost use Rattle.rules.specs.Form.{for_desk};
ghost use Rattle.rules.specs.Ledger.{count_of};
ghost use Rattle.rules.specs.Steps.{own_vector, gone, ledger_out};
ghost use Rattle.rules.specs.Sets.{set_most, absent, some_absent, named_before, named_twice, not_held, some_not_held, sender_of, many_senders, set_refusals, union, set_may_go, desks, out_to, ledger_to, release_all, step_set};
ghost use Rattle.rules.specs.Step.{out_both, written_both, release_set, step_call};
ghost use Rattle.rules.specs.Refused.{refusal_of, answer_of};
ghost use Rattle.laws.specs.Answering.{Lent};
ghost use Rattle.sets.specs.Ready.{Ready, Listed, Passed};
ghost use Rattle.sets.specs.Going.{Asks};

use ledger::Ledger;
use rules::{Answer, Refusal};
use table::{Status, Table, layout};

// The most messages of a set.
const SET_MOST: usize = 16;

// How many numbers of a list are looked at in one go. The look ends with a block that has an absent message, so that a
// long list with one near its head costs little.
const BLOCK: usize = 16;

// Whether message m isn't there.
fn absent(t: &Table, m: u32) -> bool
    ensures { result ≡ absent (state t.now) m }
{
    table::records_used(t) as usize <= table::find_record(t, m)
}

// Whether some message of the block isn't there. It doesn't end early: the numbers can be looked at side by side.
fn absent_among(t: &Table, block: &[u32]) -> bool
    ensures { result ≡ some_absent (state t.now) block.now }
{
    let mut some = false;
    for m in block {
        some = some | absent(t, *m);
    }
    some
}

// Whether some message of the list isn't there: whole blocks, and what is left.
fn some_absent(t: &Table, list: &[u32]) -> bool
    ensures { result ≡ some_absent (state t.now) list.now }
{
    let (blocks, rest) = list.as_chunks::<BLOCK>();
    for block in blocks {
        if absent_among(t, block) {
            return true;
        }
    }
    absent_among(t, rest)
}

// Whether the i-th message of the list is named before.
fn named_before(list: &[u32], i: usize) -> bool
    requires { i < length list.now }
    ensures { result ≡ named_before list.now i }
{
    list[..i].contains(&list[i])
}

fn named_twice(list: &[u32]) -> bool
    ensures { result ≡ named_twice list.now }
{
    for i in 0..list.len() {
        if named_before(list, i) {
            return true;
        }
    }
    false
}

// Whether message m isn't held.
fn not_held(t: &Table, m: u32) -> bool
    requires { Ready (state t.now) m }
    ensures { result ≡ not_held (state t.now) m }
{
    let r = table::find_record(t, m);
    table::message_state(t, r) != Status::Held as u32
}

fn some_not_held(t: &Table, list: &[u32]) -> bool
    requires { Listed t.now list.now }
    ensures { result ≡ some_not_held (state t.now) list.now }
{
    for m in list {
        if not_held(t, *m) {
            return true;
        }
    }
    false
}

fn sender_of(t: &Table, m: u32) -> u32
    requires { Ready (state t.now) m }
    ensures { result ≡ sender_of (state t.now) m }
{
    let r = table::find_record(t, m);
    table::sender(t, r)
}

// Whether the messages of the list have more than one sender.
fn many_senders(t: &Table, list: &[u32]) -> bool
    requires { Listed t.now list.now × (1 ≤ length list.now) }
    ensures { result ≡ many_senders (state t.now) list.now }
{
    let sender = sender_of(t, list[0]);
    for m in list {
        if sender_of(t, *m) != sender {
            return true;
        }
    }
    false
}

// What refuses a set. A wrong length and a message named twice are one case, the length first: of a longer list no two
// are compared.
fn check_set(t: &Table, g: &[u32], list: &[u32]) -> Result<(), Refusal>
    requires { Lent t.now }
    ensures { refusal_of result ≡ first_of (set_refusals house (state t.now) g.now list.now) }
{
    if !ledger::is_sound(g) {
        return Err(Refusal::Ledger);
    }
    if some_absent(t, list) {
        return Err(Refusal::Message);
    }
    if (list.len() == 0) | (SET_MOST < list.len()) {
        return Err(Refusal::SameController);
    }
    if named_twice(list) {
        return Err(Refusal::SameController);
    }
    if some_not_held(t, list) {
        return Err(Refusal::State);
    }
    if many_senders(t, list) {
        return Err(Refusal::Senders);
    }
    Ok(())
}

// The vector of message m, filtered for its sender.
fn own_of(t: &Table, m: u32) -> vector::Vector
    requires { Ready (state t.now) m }
    ensures { result ≡ own_vector (state t.now) (record_of (state t.now) m) }
{
    let r = table::find_record(t, m);
    release::own_vector(t, r)
}

// The union of the masks. It is the mask of the filtered vectors merged, since a merged pair is empty just where both
// are.
fn union_of(t: &Table, list: &[u32]) -> u32
    requires { Listed t.now list.now }
    ensures { result ≡ union (state t.now) list.now }
{
    let mut v = [[0u32; 2]; layout::CONTROLLERS];
    for m in list {
        let both = vector::merge_vector(v, own_of(t, *m));
        v = both;
    }
    vector::mask_of(v)
}

// Whether message m is for the desk.
fn for_desk(t: &Table, m: u32) -> bool
    requires { Ready (state t.now) m }
    ensures { result ≡ for_desk (state t.now) (record_of (state t.now) m) }
{
    let r = table::find_record(t, m);
    table::receiver(t, r) == layout::DESK
}

// How many messages of the list are for the desk.
fn desk_count(t: &Table, list: &[u32]) -> u32
    requires { Listed t.now list.now × (length list.now ≤ set_most) }
    ensures { result ≡ desks (state t.now) list.now (length list.now) }
{
    let mut n = 0;
    for m in list {
        n += u32::from(for_desk(t, *m));
    }
    n
}

// Whether the set may go with this union, where n of its messages are for the desk.
fn set_may_go(t: &Table, list: &[u32], mask: u32, n: u32) -> bool
    requires { Listed t.now list.now × (1 ≤ length list.now) × (n ≡ desks (state t.now) list.now (length list.now)) }
    ensures { result ≡ set_may_go (state t.now) list.now mask }
{
    if 0 < n {
        return mask == 0;
    }
    let sender = sender_of(t, list[0]);
    vector::within_degree(mask, table::degree(t, sender as usize))
}

// Message m goes out as by R.
fn let_go(t: &mut Table, g: &mut Ledger, m: u32)
    requires { Asks t.old g.old m }
    ensures { (t.new ≡ words (gone (state t.old) (record_of (state t.old) m))) × (g.new ≡ ledger_out (state t.old) g.old m (record_of (state t.old) m)) }
{
    let r = table::find_record(t, m);
    let v = release::own_vector(t, r);
    release::go_out(t, g, m, r, v);
}

// All messages of the list go out, in its order.
fn let_all_go(t: &mut Table, g: &mut Ledger, list: &[u32])
    requires { Passed t.old g.old list.now × (count_of g.old + desks (state t.old) list.now (length list.now) ≤ last_entry) }
    ensures { (t.new ≡ words (out_to (state t.old) list.now (length list.now))) × (g.new ≡ ledger_to (state t.old) g.old list.now (length list.now)) }
{
    for m in list {
        let_go(t, g, *m);
    }
}

// The set, which its refusals let pass.
fn release_all(t: &mut Table, g: &mut Ledger, list: &[u32]) -> Result<Answer, Refusal>
    requires { Passed t.old g.old list.now }
    ensures { out_both (answer_of result) t.new g.new ≡ written_both (release_all house (state t.old) g.old list.now) }
{
    let mask = union_of(t, list);
    let n = desk_count(t, list);
    if !set_may_go(t, list, mask, n) {
        return Ok(Answer::SetHeld(mask));
    }
    if (ledger::ENTRIES as u32) < ledger::count(g) + n {
        return Err(Refusal::LedgerUsedUp);
    }
    let_all_go(t, g, list);
    Ok(Answer::SetReleased(mask))
}

// The set on a table in form.
fn step_set(t: &mut Table, g: &mut [u32], list: &[u32]) -> Result<Answer, Refusal>
    requires { Lent t.old }
    ensures { out_both (answer_of result) t.new g.new ≡ written_both (step_set house (state t.old) g.old list.now) }
{
    let Some(g) = g.as_mut_array() else {
        return Err(Refusal::Ledger);
    };
    check_set(t, g, list)?;
    release_all(t, g, list)
}

// The set over any two lent buffers: refused, or answered.
fn set_on(t: &mut [u32], g: &mut [u32], list: &[u32]) -> Result<Answer, Refusal>
    ensures { out_both (answer_of result) t.new g.new ≡ step_call t.old g.old (release_set list.now) }
{
    let Some(t) = t.as_mut_array() else {
        return Err(Refusal::Length);
    };
    if !form::in_form(t) {
        return Err(Refusal::Form);
    }
    step_set(t, g, list)
}

// The messages of the list released as a set, over any two lent buffers.
pub fn release_set(t: &mut [u32], g: &mut [u32], list: &[u32]) -> Answer
    ensures { out_both result t.new g.new ≡ step_call t.old g.old (release_set list.now) }
{
    Answer::from(set_on(t, g, list))
}
