// The step that brings a released message to its receiver: deliver.
#![tactic(auto)]

ghost use Rattle.std.specs.Prelude.{◌≡◌, ◌<◌};
ghost use Rattle.table.specs.Field.{LiveCount};
ghost use Rattle.table.specs.Layout.{controllers, messages};
ghost use Rattle.table.specs.Words.{state, words};
ghost use Rattle.rules.specs.Limits.{house};
ghost use Rattle.rules.specs.Steps.{interval_added, interval_begins, prospect, comes_of, deliver, step_deliver};
ghost use Rattle.rules.specs.Step.{out, written};
ghost use Rattle.rules.specs.Refused.{answer_of};
ghost use Rattle.rules.specs.declared.Prospect.TheVariants.{WouldBegin};
ghost use Rattle.laws.specs.Allowed.{Room};
ghost use Rattle.laws.specs.Answering.{Lent};
ghost use Rattle.laws.specs.Chain.{Counts, Taken};

use interval::Interval;
use rules::{Answer, Prospect, Refusal};
use table::{Status, Table};

// The chain of c gets an interval with cause m, in record r, and the merged vector v.
pub fn add_interval(t: &mut Table, c: usize, m: u32, r: usize, v: vector::Vector)
    requires { (c < controllers) × Room house (state t.old) c (state t.old (LiveCount c)) × (r < messages) }
    ensures { t.new ≡ words (interval_added (state t.old) c m r v) }
{
    let i = table::incarnation(t, c);
    let live = table::live_count(t, c);
    let x = table::number_of(t, c, live + 1);
    let mut w = v;
    w[c] = [i, x];
    let added = Interval {
        incarnation: i,
        number: x,
        cause: m,
        flag: 0,
        vector: w,
    };
    interval::write_place(t, c, live as usize, &added);
    table::set_live_count(t, c, live + 1);
    table::set_message_state(t, r, Status::Delivered as u32);
}

// This new interval begins, and is checkpointed if the gap asks for it.
pub fn begin_interval(t: &mut Table, c: usize, m: u32, r: usize, v: vector::Vector) -> Answer
    requires { Counts (state t.old) c × Room house (state t.old) c (state t.old (LiveCount c)) × (r < messages) }
    ensures { out result t.new ≡ written (interval_begins (state t.old) c m r v) }
{
    let i = table::incarnation(t, c);
    let x = table::number_of(t, c, table::live_count(t, c) + 1);
    add_interval(t, c, m, r, v);
    checkpoint::cap(t, c);
    Answer::Delivered(m, i, x)
}

// What would come of delivering the message in record r.
pub fn prospect(t: &Table, r: usize) -> Prospect
    requires { Taken (state t.now) r }
    ensures { result ≡ prospect house (state t.now) r }
{
    let c = table::receiver(t, r) as usize;
    let sent = vector::message_vector(t, r);
    if vector::condemned_vector(t, c, sent) {
        let owner = vector::condemning(t, c, sent);
        return Prospect::WouldDrop(owner as u32, sent[owner][0]);
    }
    let theirs = vector::filter_vector(t, c, sent);
    let live = table::live_count(t, c);
    if vector::place_conflict(t, c, live as usize - 1, theirs) {
        return Prospect::WouldWait;
    }
    if interval::no_place(t, c, live) {
        return Prospect::NoPlaceLeft;
    }
    Prospect::WouldBegin
}

// Message m, in record r, begins an interval of its receiver. The two vectors are taken once more: a prospect holds none.
pub fn deliver_next(t: &mut Table, m: u32, r: usize) -> Answer
    requires { Taken (state t.old) r × (prospect house (state t.old) r ≡ WouldBegin) }
    ensures { out result t.new ≡ written (comes_of (state t.old) m r WouldBegin) }
{
    let c = table::receiver(t, r) as usize;
    let ours = message::newest_vector(t, c);
    let theirs = vector::filter_vector(t, c, vector::message_vector(t, r));
    begin_interval(t, c, m, r, vector::merge_vector(ours, theirs))
}

// What would come of message m, in record r, comes of it.
pub fn come_of(t: &mut Table, m: u32, r: usize, p: Prospect) -> Result<Answer, Refusal>
    requires { Taken (state t.old) r × (p ≡ prospect house (state t.old) r) }
    ensures { out (answer_of result) t.new ≡ written (comes_of (state t.old) m r p) }
{
    match p {
        Prospect::WouldDrop(owner, i) => {
            table::set_message_state(t, r, Status::Dropped as u32);
            Ok(Answer::Dropped(m, owner, i))
        }
        Prospect::WouldWait => Ok(Answer::Waits(m)),
        Prospect::NoPlaceLeft => Err(Refusal::PlacesUsedUp),
        Prospect::WouldBegin => Ok(deliver_next(t, m, r)),
    }
}

// D on message m in record r, which its refusals let pass.
pub fn deliver_record(t: &mut Table, m: u32, r: usize) -> Result<Answer, Refusal>
    requires { Taken (state t.old) r }
    ensures { out (answer_of result) t.new ≡ written (deliver house (state t.old) m r) }
{
    come_of(t, m, r, prospect(t, r))
}

// D m, on a table in form.
pub fn deliver(t: &mut Table, m: u32) -> Result<Answer, Refusal>
    requires { Lent t.old }
    ensures { out (answer_of result) t.new ≡ written (step_deliver house (state t.old) m) }
{
    let r = table::find_record(t, m);
    message::check_message(t, r, Status::Released as u32)?;
    deliver_record(t, m, r)
}
