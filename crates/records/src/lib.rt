// Whether the words of one record are in their ranges: the head's, a controller's, a row of known and end words, a
// place's, a message's. No branch on a word that is tested, as in the parts.
#![tactic(auto)]

ghost use Rattle.std.specs.Prelude.{◌≡◌, ◌<◌};
ghost use Rattle.table.specs.Layout.{controllers, places, messages};
ghost use Rattle.table.specs.Words.{state};
ghost use Rattle.rules.specs.Limits.{house};
ghost use Rattle.rules.specs.Form.{head_ok, controller_ok, row_ok, place_ok, message_ok};

use table::{Table, layout};

// The head: the number of controllers, the records in use, the gap, the controller last served, and zeros for the rest.
pub fn head_ok(t: &Table) -> bool
    ensures { result ≡ head_ok house (state t.now) }
{
    let n = table::size(t);
    (1 <= n)
        & (n <= layout::CONTROLLERS as u32)
        & (table::records_used(t) <= layout::MESSAGES as u32)
        & parts::all_zero(&t[layout::SPARE..layout::GAP])
        & (table::gap(t) <= layout::LAST_GAP)
        & (table::served(t) <= layout::LAST_SERVED)
        & parts::all_zero(&t[layout::SPARE_AGAIN..layout::HEAD_WORDS])
}

pub fn controller_ok(t: &Table, n: u32, c: usize) -> bool
    requires { c < controllers }
    ensures { result ≡ controller_ok house n (state t.now) c }
{
    if c < n as usize {
        let live = table::live_count(t, c);
        let stable = table::stable_count(t, c);
        (table::degree(t, c) <= n)
            & (table::incarnation(t, c) <= layout::LAST_INCARNATION)
            & (1 <= live)
            & (live <= layout::PLACES as u32)
            & (1 <= stable)
            & (stable <= live)
    } else {
        let from = table::controller_at(c);
        parts::all_zero(&t[from..from + layout::CONTROLLER_WORDS])
    }
}

// The known and end words that `holder` has of `owner`.
pub fn row_ok(t: &Table, n: u32, holder: usize, owner: usize) -> bool
    requires { (holder < controllers) × (owner < controllers) }
    ensures { result ≡ row_ok house n (state t.now) holder owner }
{
    let most = parts::highest_known(n, holder, owner);
    let mut ok = true;
    for i in 0..layout::INCARNATIONS {
        let known = table::known(t, holder, owner, i);
        let end = table::end(t, holder, owner, i);
        ok = ok & ((known <= most) & (end <= most));
    }
    ok
}

pub fn place_ok(t: &Table, n: u32, c: usize, p: usize) -> bool
    requires { (c < controllers) × (p < places) }
    ensures { result ≡ place_ok house n (state t.now) c p }
{
    let q = p as u32;
    if q < table::live_count(t, c) {
        let flag = table::flag(t, c, p);
        (table::place_incarnation(t, c, p) <= layout::LAST_INCARNATION)
            & table::is_number_of(t, c, q + 1, table::place_number(t, c, p))
            & (table::cause(t, c, p) <= table::last_given(t))
            & (flag <= 1)
            & ((0 < q) | (flag == 1))
            & parts::vector_ok(t, n, table::place_vector_at(c, p))
    } else {
        let from = table::place_at(c, p);
        parts::all_zero(&t[from..from + layout::PLACE_WORDS])
    }
}

pub fn message_ok(t: &Table, n: u32, r: usize) -> bool
    requires { r < messages }
    ensures { result ≡ message_ok house n (state t.now) r }
{
    if (r as u32) < table::records_used(t) {
        let receiver = table::receiver(t, r);
        let for_desk = receiver == layout::DESK;
        let number = table::sending_number(t, r);
        parts::state_ok(for_desk, table::message_state(t, r))
            & (table::sender(t, r) < n)
            & ((receiver < n) | for_desk)
            & (table::sending_incarnation(t, r) <= layout::LAST_INCARNATION)
            & (1 <= number)
            & (number <= layout::LAST_NUMBER)
            & parts::vector_ok(t, n, table::message_vector_at(r))
    } else {
        let from = table::message_at(r);
        parts::all_zero(&t[from..from + layout::MESSAGE_WORDS])
    }
}
