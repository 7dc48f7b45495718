// Whether parts of a record are in their ranges: a run of zeros, a pair, a vector, a known or end word, a message's
// state. No branch on a word that is tested, so that several are looked at in one go; a long run branches after each
// block.
#![tactic(auto)]

ghost use Rattle.std.specs.Prelude.{◌≡◌, cond, ◌+◌, ◌≤◌, length};
ghost use Rattle.table.specs.Layout.{vector_words};
ghost use Rattle.rules.specs.Limits.{house};
ghost use Rattle.rules.specs.Vector.{pair};
ghost use Rattle.rules.specs.Form.{pair_ok, vector_ok, highest, state_ok};
ghost use Rattle.vector.specs.At.{vector_at};
ghost use Rattle.parts.specs.Zeros.{all_zero};

use table::{Status, layout};

// The words of a block: a long run ends at the first block that isn't 0.
pub const BLOCK: usize = 64;

// Whether all words of the part are 0, each looked at.
pub fn words_zero(part: &[u32]) -> bool
    ensures { result ≡ all_zero part.now }
{
    let mut ok = true;
    for x in part {
        ok = ok & (*x == 0);
    }
    ok
}

// Whether all words of the part are 0: whole blocks, and what is left.
pub fn all_zero(part: &[u32]) -> bool
    ensures { result ≡ all_zero part.now }
{
    let (blocks, rest) = part.as_chunks::<BLOCK>();
    for block in blocks {
        if !words_zero(block) {
            return false;
        }
    }
    words_zero(rest)
}

// The most that a word of a controller may be: 0, if the controller isn't there.
pub fn bound(there: bool, most: u32) -> u32
    ensures { result ≡ cond there most 0 }
{
    if there { most } else { 0 }
}

// The pair of `owner`, with incarnation i and number x. One test whether or not the owner is there, so that all pairs
// of a vector go together.
pub fn pair_ok(n: u32, owner: usize, i: u32, x: u32) -> bool
    ensures { result ≡ pair_ok house n owner (pair i x) }
{
    let there = owner < n as usize;
    (x <= bound(there, layout::LAST_NUMBER))
        & (i <= bound(there, layout::LAST_INCARNATION))
        & ((0 < x) | (i == 0))
}

// The vector whose words begin at word `at`.
pub fn vector_ok(t: &[u32], n: u32, at: usize) -> bool
    requires { at + vector_words ≤ length t.now }
    ensures { result ≡ vector_ok house n (vector_at t.now at) }
{
    let mut ok = true;
    for owner in 0..layout::CONTROLLERS {
        ok = ok & pair_ok(n, owner, t[at + 2 * owner], t[at + 2 * owner + 1]);
    }
    ok
}

// The highest number that `holder` may have of `owner`.
pub fn highest_known(n: u32, holder: usize, owner: usize) -> u32
    ensures { result ≡ highest house n holder owner }
{
    bound(
        (holder < n as usize) & (owner < n as usize),
        layout::LAST_NUMBER,
    )
}

// The state of a sent message, by whether it is for the desk.
pub fn state_ok(desk: bool, state: u32) -> bool
    ensures { result ≡ state_ok desk state }
{
    let sent_out = (state == Status::Held as u32)
        | ((state == Status::Dropped as u32) | (state == Status::Published as u32));
    let sent_within = (Status::Held as u32 <= state) & (state <= Status::Dropped as u32);
    (desk & sent_out) | (!desk & sent_within)
}
