// What removing intervals does to messages: their causes get a state, and held messages that they sent are dropped.
#![tactic(auto)]

ghost use Rattle.std.specs.Prelude.{◌≡◌, ◌-◌, ◌≤◌, ◌<◌};
ghost use Rattle.table.specs.Field.{LiveCount, MessageState};
ghost use Rattle.table.specs.Change.{put};
ghost use Rattle.table.specs.Layout.{controllers, places, messages};
ghost use Rattle.table.specs.Words.{state, words};
ghost use Rattle.table.specs.Status.{word};
ghost use Rattle.table.specs.Numbering.{last_live, used};
ghost use Rattle.rules.specs.Limits.{last_number};
ghost use Rattle.rules.specs.Shared.{offered_again, causing, causes_in, causes, orphaned, held_or_dropped, drop_held};
ghost use Rattle.laws.specs.Chain.{Chain};
ghost use Rattle.removal.specs.Dropping.{Sent};

use table::{Status, Table, layout};

// The state of the cause in record r of an interval that c lost or undid: it is offered again, unless it is condemned
// to c.
pub fn fate_of(t: &Table, c: usize, r: usize) -> Status
    requires { Chain (state t.now) c × (r < messages) }
    ensures { word result ≡ offered_again (state t.now) c r }
{
    let v = vector::message_vector(t, r);
    if vector::condemned_vector(t, c, v) {
        Status::Dropped
    } else {
        Status::Released
    }
}

// Whether a message stands in record r that can be a cause: one for the desk is passed over.
pub fn causing(t: &Table, r: usize) -> bool
    requires { used (state t.now) ≤ messages }
    ensures { result ≡ causing (state t.now) r }
{
    if table::records_used(t) as usize <= r {
        return false;
    }
    table::receiver(t, r) != layout::DESK
}

// The cause of the interval in place p of c, if it has a record and is not for the desk, gets its state.
pub fn settle_cause(t: &mut Table, c: usize, p: usize)
    requires { Chain (state t.old) c × (p < state t.old (LiveCount c)) }
    ensures { t.new ≡ words (causes_in (state t.old) c p 1) }
{
    let m = table::cause(t, c, p);
    let r = table::find_record(t, m);
    if causing(t, r) {
        let s = fate_of(t, c, r);
        table::set_message_state(t, r, u32::from(s));
    }
}

// The causes of the intervals of c from place k on get their states.
pub fn settle_causes(t: &mut Table, c: usize, k: usize)
    requires { Chain (state t.old) c × (k ≤ state t.old (LiveCount c)) }
    ensures { t.new ≡ words (causes (state t.old) c k) }
{
    let live = table::live_count(t, c) as usize;
    for p in k..live {
        settle_cause(t, c, p);
    }
}

// Whether the message in record r is held, from c and with a sending number above x.
pub fn orphaned(t: &Table, c: usize, x: u32, r: usize) -> bool
    requires { r < messages }
    ensures { result ≡ orphaned (state t.now) c x r }
{
    (table::message_state(t, r) == Status::Held as u32)
        & ((table::sender(t, r) as usize == c) & (x < table::sending_number(t, r)))
}

// Then it is dropped.
pub fn drop_one(t: &mut Table, c: usize, x: u32, r: usize)
    requires { r < messages }
    ensures { t.new ≡ words (put (state t.old) (MessageState r) (held_or_dropped (state t.old) c x r)) }
{
    if orphaned(t, c, x, r) {
        table::set_message_state(t, r, Status::Dropped as u32);
    }
}

// Held messages from c with a sending number above that of the k-th interval are dropped.
pub fn drop_held(t: &mut Table, c: usize, k: u32)
    requires { (c < controllers) × Sent (state t.old) × (last_live (state t.old) c ≤ last_number) × (k ≤ places) }
    ensures { t.new ≡ words (drop_held (state t.old) c k) }
{
    let x = table::number_of(t, c, k);
    let sent = table::records_used(t) as usize;
    for r in 0..sent {
        drop_one(t, c, x, r);
    }
}
