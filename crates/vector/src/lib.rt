// Dependency vectors by value, a pair of incarnation and number for each controller: taken from words, filtered,
// merged, judged, and written back.
#![tactic(auto)]

ghost use Rattle.std.specs.Prelude.{◌≡◌, ◌+◌, ◌≤◌, ◌<◌, leb, length};
ghost use Rattle.std.specs.Int.Count.{ones};
ghost use Rattle.table.specs.Layout.{controllers, incarnations, places, messages, vector_words, table_words};
ghost use Rattle.table.specs.Words.{state};
ghost use Rattle.rules.specs.Vector.{incarnation, pair_of, place_vector, message_vector, flat, filter_pair, filtered, condemned_pair, condemned, condemning, mask, conflict_pair, conflict, merge_pair, merged};
ghost use Rattle.laws.specs.Facts.{Near};
ghost use Rattle.vector.specs.At.{pair_at, vector_at};

use table::{Table, layout};

// Incarnation and number.
pub type Pair = [u32; 2];

// The pair of each owner.
pub type Vector = [Pair; layout::CONTROLLERS];

// The pair of `owner` in the vector whose words begin at word `at`.
pub fn pair_at(t: &[u32], at: usize, owner: usize) -> Pair
    requires { (at + vector_words ≤ length t.now) × (owner < controllers) }
    ensures { result ≡ pair_at t.now at owner }
{
    [t[at + 2 * owner], t[at + 2 * owner + 1]]
}

// The vector whose words begin at word `at`.
pub fn vector_at(t: &[u32], at: usize) -> Vector
    requires { at + vector_words ≤ length t.now }
    ensures { result ≡ vector_at t.now at }
{
    let mut v = [[0u32; 2]; layout::CONTROLLERS];
    for owner in 0..layout::CONTROLLERS {
        v[owner] = pair_at(t, at, owner);
    }
    v
}

pub fn place_vector(t: &Table, c: usize, p: usize) -> Vector
    requires { (c < controllers) × (p < places) }
    ensures { result ≡ place_vector (state t.now) c p }
{
    vector_at(t, table::place_vector_at(c, p))
}

// The pair of `owner` in the vector of a place; the other pairs are not looked at.
pub fn place_pair(t: &Table, c: usize, p: usize, owner: usize) -> Pair
    requires { (c < controllers) × (p < places) × (owner < controllers) }
    ensures { result ≡ pair_of (place_vector (state t.now) c p) owner }
{
    pair_at(t, table::place_vector_at(c, p), owner)
}

pub fn message_vector(t: &Table, r: usize) -> Vector
    requires { r < messages }
    ensures { result ≡ message_vector (state t.now) r }
{
    vector_at(t, table::message_vector_at(r))
}

// The pair of `owner`, or none where `holder` knows it to be stable.
pub fn filter_pair(t: &Table, holder: usize, owner: usize, p: Pair) -> Pair
    requires { (holder < controllers) × (owner < controllers) × (incarnation p < incarnations) }
    ensures { result ≡ filter_pair (state t.now) holder owner p }
{
    if p[1] <= table::known(t, holder, owner, p[0] as usize) {
        [0, 0]
    } else {
        p
    }
}

pub fn filter_vector(t: &Table, holder: usize, v: Vector) -> Vector
    requires { (holder < controllers) × Near v }
    ensures { result ≡ filtered (state t.now) holder v }
{
    let mut w = [[0u32; 2]; layout::CONTROLLERS];
    for owner in 0..layout::CONTROLLERS {
        w[owner] = filter_pair(t, holder, owner, v[owner]);
    }
    w
}

// Whether the crashes that `holder` has heard condemn the pair of `owner`.
pub fn condemned_pair(t: &Table, holder: usize, owner: usize, p: Pair) -> bool
    requires { (holder < controllers) × (owner < controllers) × (incarnation p < incarnations) }
    ensures { result ≡ condemned_pair (state t.now) holder owner p }
{
    let end = table::end(t, holder, owner, p[0] as usize);
    (p[1] != 0) & ((end != 0) & (end < p[1]))
}

pub fn condemned_vector(t: &Table, holder: usize, v: Vector) -> bool
    requires { (holder < controllers) × Near v }
    ensures { result ≡ condemned (state t.now) holder v }
{
    let mut some = false;
    for owner in 0..layout::CONTROLLERS {
        some = some | condemned_pair(t, holder, owner, v[owner]);
    }
    some
}

// The lowest owner whose pair they condemn, or the number of controllers.
pub fn condemning(t: &Table, holder: usize, v: Vector) -> usize
    requires { (holder < controllers) × Near v }
    ensures { result ≡ condemning (state t.now) holder v }
{
    for owner in 0..layout::CONTROLLERS {
        if condemned_pair(t, holder, owner, v[owner]) {
            return owner;
        }
    }
    layout::CONTROLLERS
}

// Whether `owner`, other than c, has non-empty pairs of different incarnations.
pub fn conflict_pair(c: usize, owner: usize, p: Pair, q: Pair) -> bool
    ensures { result ≡ conflict_pair c owner p q }
{
    (owner != c) & ((p[1] != 0) & ((q[1] != 0) & (p[0] != q[0])))
}

// Whether the pair of `owner` at place p of c, filtered for c, conflicts with q. It is looked at only where q isn't
// empty.
pub fn place_pair_conflict(t: &Table, c: usize, p: usize, owner: usize, q: Pair) -> bool
    requires { (c < controllers) × (p < places) × (owner < controllers) × Near (place_vector (state t.now) c p) }
    ensures { result ≡ conflict_pair c owner (filter_pair (state t.now) c owner (pair_of (place_vector (state t.now) c p) owner)) q }
{
    if q[1] == 0 {
        return false;
    }
    let ours = filter_pair(t, c, owner, place_pair(t, c, p, owner));
    conflict_pair(c, owner, ours, q)
}

// Whether the vector of place p of c, filtered for c, conflicts with w.
pub fn place_conflict(t: &Table, c: usize, p: usize, w: Vector) -> bool
    requires { (c < controllers) × (p < places) × Near (place_vector (state t.now) c p) }
    ensures { result ≡ conflict c (filtered (state t.now) c (place_vector (state t.now) c p)) w }
{
    for owner in 0..layout::CONTROLLERS {
        if place_pair_conflict(t, c, p, owner, w[owner]) {
            return true;
        }
    }
    false
}

// The non-empty pair, or the one with the larger number.
pub fn merge_pair(p: Pair, q: Pair) -> Pair
    ensures { result ≡ merge_pair p q }
{
    if p[1] < q[1] { q } else { p }
}

pub fn merge_vector(v: Vector, w: Vector) -> Vector
    ensures { result ≡ merged v w }
{
    let mut both = [[0u32; 2]; layout::CONTROLLERS];
    for owner in 0..layout::CONTROLLERS {
        both[owner] = merge_pair(v[owner], w[owner]);
    }
    both
}

// The mask of the owners with a non-empty pair.
pub fn mask_of(v: Vector) -> u32
    ensures { result ≡ mask v }
{
    let mut mask = 0;
    let mut bit = 1;
    for owner in 0..layout::CONTROLLERS {
        if v[owner][1] != 0 {
            mask += bit;
        }
        bit *= 2;
    }
    mask
}

// Whether a mask names at most k controllers.
pub fn within_degree(mask: u32, k: u32) -> bool
    ensures { result ≡ leb (ones mask) k }
{
    u32::count_ones(mask) <= k
}

// The words of a vector, written into the part of a record that is lent for it.
pub fn write_vector(d: &mut [u32], v: Vector)
    requires { length d.old ≡ vector_words }
    ensures { d.new ≡ flat v }
{
    for i in 0..layout::VECTOR_WORDS {
        d[i] = v[i / 2][i % 2];
    }
}
