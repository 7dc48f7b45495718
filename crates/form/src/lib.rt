// The check that a table is in form: every word in its range, record by record (crate `records`). It ends at the first
// record that isn't.
#![tactic(auto)]

ghost use Rattle.std.specs.Prelude.{◌≡◌, true, ◌<◌};
ghost use Rattle.base.specs.Ranges.{allb};
ghost use Rattle.table.specs.Layout.{controllers, places, messages};
ghost use Rattle.table.specs.Words.{state};
ghost use Rattle.rules.specs.Limits.{house};
ghost use Rattle.rules.specs.Form.{head_ok, controller_ok, row_ok, place_ok, message_ok, in_form};

use table::{Table, layout};

pub fn controllers_ok(t: &Table, n: u32) -> bool
    ensures { result ≡ allb controllers (controller_ok house n (state t.now)) }
{
    for c in 0..layout::CONTROLLERS {
        if !records::controller_ok(t, n, c) {
            return false;
        }
    }
    true
}

// The known and end words of one holder.
pub fn rows_ok(t: &Table, n: u32, holder: usize) -> bool
    requires { holder < controllers }
    ensures { result ≡ allb controllers (row_ok house n (state t.now) holder) }
{
    for owner in 0..layout::CONTROLLERS {
        if !records::row_ok(t, n, holder, owner) {
            return false;
        }
    }
    true
}

pub fn all_rows_ok(t: &Table, n: u32) -> bool
    ensures { result ≡ allb controllers (λ holder. allb controllers (row_ok house n (state t.now) holder)) }
{
    for holder in 0..layout::CONTROLLERS {
        if !rows_ok(t, n, holder) {
            return false;
        }
    }
    true
}

// The places of c: the live ones by themselves, and those above as one run of words.
pub fn places_ok(t: &Table, n: u32, c: usize) -> bool
    requires { c < controllers }
    ensures { result ≡ allb places (place_ok house n (state t.now) c) }
{
    let live = (table::live_count(t, c) as usize).min(layout::PLACES);
    for p in 0..live {
        if !records::place_ok(t, n, c, p) {
            return false;
        }
    }
    parts::all_zero(&t[table::place_at(c, live)..table::place_at(c, layout::PLACES)])
}

pub fn all_places_ok(t: &Table, n: u32) -> bool
    ensures { result ≡ allb controllers (λ c. allb places (place_ok house n (state t.now) c)) }
{
    for c in 0..layout::CONTROLLERS {
        if !places_ok(t, n, c) {
            return false;
        }
    }
    true
}

// The messages: the sent ones by themselves, and those above as one run of words.
pub fn messages_ok(t: &Table, n: u32) -> bool
    ensures { result ≡ allb messages (message_ok house n (state t.now)) }
{
    let sent = (table::records_used(t) as usize).min(layout::MESSAGES);
    for r in 0..sent {
        if !records::message_ok(t, n, r) {
            return false;
        }
    }
    parts::all_zero(&t[table::message_at(sent)..table::message_at(layout::MESSAGES)])
}

// Where the head is in form: every record, the controllers, their rows and places, the messages.
pub fn records_ok(t: &Table) -> bool
    requires { head_ok house (state t.now) ≡ true }
    ensures { result ≡ in_form house (state t.now) }
{
    let n = table::size(t);
    if !controllers_ok(t, n) {
        return false;
    }
    if !all_rows_ok(t, n) {
        return false;
    }
    if !all_places_ok(t, n) {
        return false;
    }
    messages_ok(t, n)
}

// The head by itself, so that a table that was never opened is refused where the call stands.
pub fn in_form(t: &Table) -> bool
    ensures { result ≡ in_form house (state t.now) }
{
    if !records::head_ok(t) {
        return false;
    }
    records_ok(t)
}
