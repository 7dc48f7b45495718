// The step O: a house is opened in a table, whatever stood in it before, and the ledger is cleared.
#![tactic(auto)]

ghost use Rattle.std.specs.Prelude.{◌≡◌, ◌<◌, length};
ghost use Rattle.base.specs.Cases.{first_of};
ghost use Rattle.table.specs.Layout.{controllers, controller_words};
ghost use Rattle.table.specs.Words.{state, words};
ghost use Rattle.rules.specs.Limits.{house};
ghost use Rattle.rules.specs.Steps.{first_controller, first_vector, open_house, open_refusals, step_open};
ghost use Rattle.rules.specs.Step.{out_both, written_both};
ghost use Rattle.rules.specs.Refused.{refusal_of, answer_of};
ghost use Rattle.laws.specs.Allowed.{OpenAllowed};
ghost use Rattle.opening.specs.Opened.{begins_at};

use interval::Interval;
use rules::{Answer, Refusal};
use table::{Table, layout};
use vector::Vector;

// What refuses O n k.
pub fn check_open(g: &[u32], n: u32, k: u32) -> Result<(), Refusal>
    ensures { refusal_of result ≡ first_of (open_refusals house g.now n k) }
{
    if g.len() != ledger::LEDGER_WORDS {
        return Err(Refusal::Ledger);
    }
    if (n == 0) | ((layout::CONTROLLERS as u32) < n) | (n < k) {
        return Err(Refusal::Degree);
    }
    Ok(())
}

// A controller's record: degree k, incarnation 0, one live interval, which is stable.
pub fn write_controller(d: &mut [u32], k: u32)
    requires { length d.old ≡ controller_words }
    ensures { d.new ≡ first_controller k }
{
    d[layout::DEGREE_WORD] = k;
    d[layout::INCARNATION_WORD] = 0;
    d[layout::LIVE_COUNT_WORD] = 1;
    d[layout::STABLE_COUNT_WORD] = 1;
}

// The vector of c's first interval: its own pair (0,1) alone.
pub fn first_vector(c: usize) -> Vector
    requires { c < controllers }
    ensures { result ≡ first_vector c }
{
    let mut v = [[0u32; 2]; layout::CONTROLLERS];
    v[c] = [0, 1];
    v
}

// Controller c has interval (0,1), flagged, stable and known to it.
pub fn open_controller(t: &mut Table, c: usize, k: u32)
    requires { c < controllers }
    ensures { t.new ≡ words (begins_at (state t.old) c k) }
{
    let from = table::controller_at(c);
    let to = from + layout::CONTROLLER_WORDS;
    write_controller(&mut t[from..to], k);
    table::set_known(t, c, c, 0, 1);
    let first = Interval {
        incarnation: 0,
        number: 1,
        cause: 0,
        flag: 1,
        vector: first_vector(c),
    };
    interval::write_place(t, c, 0, &first);
}

// Every word becomes 0, the head gets n and its last controller as the one served last, and each of the n controllers
// begins.
pub fn open_house(t: &mut Table, n: u32, k: u32)
    requires { OpenAllowed n k }
    ensures { t.new ≡ words (open_house n k) }
{
    interval::clear(t);
    table::set_served(t, n - 1);
    table::set_size(t, n);
    for c in 0..n as usize {
        open_controller(t, c, k);
    }
}

// O n k, whatever stands in the table.
pub fn open(t: &mut Table, g: &mut [u32], n: u32, k: u32) -> Result<Answer, Refusal>
    ensures { out_both (answer_of result) t.new g.new ≡ written_both (step_open house (state t.old) g.old n k) }
{
    check_open(g, n, k)?;
    open_house(t, n, k);
    interval::clear(g);
    Ok(Answer::Done)
}
