// What a crash and a rollback share: starting anew, and removing intervals.
#![tactic(auto)]

ghost use Rattle.std.specs.Prelude.{◌≡◌, ◌<◌};
ghost use Rattle.table.specs.Field.{OfPlace, LiveCount};
ghost use Rattle.table.specs.Change.{put_part, clear_places};
ghost use Rattle.table.specs.Layout.{controllers, incarnations};
ghost use Rattle.table.specs.Words.{state, words};
ghost use Rattle.rules.specs.Shared.{new_vector, place_record, entered, restarted, start_anew, removed};
ghost use Rattle.laws.specs.Chain.{Starts};

use interval::Interval;
use table::Table;
use vector::Vector;

// The kept vector filtered for c, with c's own pair set to the new interval.
pub fn new_vector(t: &Table, c: usize, k: u32) -> Vector
    requires { Starts (state t.now) c k }
    ensures { result ≡ new_vector (state t.now) c k }
{
    let kept = vector::place_vector(t, c, k as usize - 1);
    let mut v = vector::filter_vector(t, c, kept);
    v[c] = [table::incarnation(t, c) + 1, table::number_of(t, c, k + 1)];
    v
}

// Freed places become 0, and place k gets the new interval.
pub fn write_start(t: &mut Table, c: usize, k: u32, it: &Interval)
    requires { Starts (state t.old) c k }
    ensures { t.new ≡ words (put_part (clear_places (state t.old) c k (state t.old (LiveCount c))) (OfPlace c k 0) 0 (place_record it.now.incarnation it.now.number it.now.cause it.now.flag it.now.vector)) }
{
    let live = table::live_count(t, c) as usize;
    let p = k as usize;
    interval::clear_places(t, c, p, live);
    interval::write_place(t, c, p, it);
}

// The controller is in incarnation i, with k intervals live and stable, the last of them x.
pub fn enter(t: &mut Table, c: usize, k: u32, i: u32, x: u32)
    requires { (c < controllers) × (i < incarnations) }
    ensures { t.new ≡ words (entered (state t.old) c k i x) }
{
    table::set_incarnation(t, c, i);
    table::set_live_count(t, c, k);
    table::set_stable_count(t, c, k);
    table::set_known(t, c, c, i as usize, x);
}

// The new incarnation of c begins after its k-th interval.
pub fn begin_incarnation(t: &mut Table, c: usize, k: u32)
    requires { Starts (state t.old) c k }
    ensures { t.new ≡ words (restarted (state t.old) c k) }
{
    let start = Interval {
        incarnation: table::incarnation(t, c) + 1,
        number: table::number_of(t, c, k + 1),
        cause: 0,
        flag: 0,
        vector: new_vector(t, c, k),
    };
    write_start(t, c, k, &start);
    enter(t, c, k + 1, start.incarnation, start.number);
}

// Starting anew at c after the k-th interval. The start may be checkpointed as it begins.
pub fn start_anew(t: &mut Table, c: usize, k: u32)
    requires { Starts (state t.old) c k }
    ensures { t.new ≡ words (start_anew (state t.old) c k) }
{
    begin_incarnation(t, c, k);
    checkpoint::cap(t, c);
    removal::drop_held(t, c, k);
}

// The intervals of c from place k on are removed: their causes get their states, and c starts anew.
pub fn remove_intervals(t: &mut Table, c: usize, k: u32)
    requires { Starts (state t.old) c k }
    ensures { t.new ≡ words (removed (state t.old) c k) }
{
    removal::settle_causes(t, c, k as usize);
    start_anew(t, c, k);
}
