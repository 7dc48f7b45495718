// The places of a controller's chain: writing an interval record, freeing places, the latest checkpoint, and the walk
// of H.
#![tactic(auto)]

ghost use Rattle.std.specs.Prelude.{◌≡◌, ◌+◌, ◌≤◌, ◌<◌, length};
ghost use Rattle.table.specs.Field.{OfPlace};
ghost use Rattle.table.specs.Change.{put_part, clear_places};
ghost use Rattle.table.specs.Layout.{controllers, places, place_words};
ghost use Rattle.table.specs.Words.{state, words};
ghost use Rattle.table.specs.Numbering.{last_live};
ghost use Rattle.rules.specs.Limits.{house, last_number};
ghost use Rattle.rules.specs.Shared.{place_record, latest_flagged};
ghost use Rattle.rules.specs.Steps.{no_place, lowest_condemned};
ghost use Rattle.laws.specs.Chain.{Chain};
ghost use Rattle.interval.specs.LentPlaces.{zero_words};

use table::{Table, layout};
use vector::Vector;

// What stands in a place: an interval, by its incarnation and number, its cause and flag, and its vector.
#[derive(Clone, Copy)]
pub struct Interval {
    pub incarnation: u32,
    pub number: u32,
    pub cause: u32,
    pub flag: u32,
    pub vector: Vector,
}

// The 20 words of a place, lent from inside the table, become an interval's record.
pub fn write_interval(d: &mut [u32], it: &Interval)
    requires { length d.old ≡ place_words }
    ensures { d.new ≡ place_record it.now.incarnation it.now.number it.now.cause it.now.flag it.now.vector }
{
    d[layout::PLACE_INCARNATION_WORD] = it.incarnation;
    d[layout::PLACE_NUMBER_WORD] = it.number;
    d[layout::CAUSE_WORD] = it.cause;
    d[layout::FLAG_WORD] = it.flag;
    let from = layout::PLACE_HEAD;
    let to = layout::PLACE_WORDS;
    vector::write_vector(&mut d[from..to], it.vector);
}

// Place p of c becomes an interval's record; no other word is written.
pub fn write_place(t: &mut Table, c: usize, p: usize, it: &Interval)
    requires { (c < controllers) × (p < places) }
    ensures { t.new ≡ words (put_part (state t.old) (OfPlace c p 0) 0 (place_record it.now.incarnation it.now.number it.now.cause it.now.flag it.now.vector)) }
{
    let from = table::place_at(c, p);
    let to = from + layout::PLACE_WORDS;
    write_interval(&mut t[from..to], it);
}

// All words of a part become 0.
pub fn clear(d: &mut [u32])
    ensures { d.new ≡ zero_words (length d.old) }
{
    d.fill(0);
}

// Places of c from p on and below q become 0.
pub fn clear_places(t: &mut Table, c: usize, p: usize, q: usize)
    requires { (c < controllers) × (p ≤ q) × (q ≤ places) }
    ensures { t.new ≡ words (clear_places (state t.old) c p q) }
{
    let from = table::place_at(c, p);
    let to = table::place_at(c, q);
    clear(&mut t[from..to]);
}

// Whether no place is left for an interval after the k-th of c. It asks what the number of that interval needs, though
// it doesn't make it yet.
pub fn no_place(t: &Table, c: usize, k: u32) -> bool
    requires { (c < controllers) × (k ≤ places) × (last_live (state t.now) c ≤ last_number) }
    ensures { result ≡ no_place house (state t.now) c k }
{
    layout::PLACES as u32 <= k
}

// The number of the latest checkpoint among the first k places of c, or 0.
pub fn latest_flagged(t: &Table, c: usize, k: usize) -> u32
    requires { (c < controllers) × (k ≤ places) × (last_live (state t.now) c ≤ last_number) }
    ensures { result ≡ latest_flagged (state t.now) c k }
{
    for q in (0..k).rev() {
        if table::flag(t, c, q) == 1 {
            return table::number_of(t, c, q as u32 + 1);
        }
    }
    0
}

// The number of the latest checkpoint among the places up to and with p, from `flagged`, that of the places below p.
pub fn raise_flagged(t: &Table, c: usize, p: usize, flagged: u32) -> u32
    requires { (c < controllers) × (p < places) × (flagged ≡ latest_flagged (state t.now) c p) × (last_live (state t.now) c ≤ last_number) }
    ensures { result ≡ latest_flagged (state t.now) c (p + 1) }
{
    if table::flag(t, c, p) == 1 {
        table::number_of(t, c, p as u32 + 1)
    } else {
        flagged
    }
}

// Where the walk of H stopped: the place, and the running figure there, the number of the latest checkpoint below it.
#[derive(Drop)]
pub struct Stop {
    pub place: usize,
    pub flagged: u32,
}

// The walk of H upwards: to the lowest place above 0 whose vector holds a condemned entry, or past the last live one.
// The figure begins as that of place 0 alone. What holds at each place that the walk comes to is `Come` in
// specs/Walks.antt.
pub fn lowest_condemned(t: &Table, hearer: usize) -> Stop
    requires { Chain (state t.now) hearer }
    ensures { (result.place ≡ lowest_condemned (state t.now) hearer) × (result.flagged ≡ latest_flagged (state t.now) hearer result.place) }
{
    let live = table::live_count(t, hearer) as usize;
    let mut flagged = latest_flagged(t, hearer, 1);
    let mut p = 1;
    let place = 'places: loop {
        if live <= p {
            break 'places p;
        }
        for owner in 0..layout::CONTROLLERS {
            let entry = vector::place_pair(t, hearer, p, owner);
            if vector::condemned_pair(t, hearer, owner, entry) {
                break 'places p;
            }
        }
        flagged = raise_flagged(t, hearer, p, flagged);
        p += 1;
    };
    Stop { place, flagged }
}
