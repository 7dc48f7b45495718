// The words of the lent table by name: the only functions that read or write a word by its position. Names of words are those of
// specs/Field.antt.
#![tactic(auto)]

ghost use Rattle.std.specs.Prelude.{◌≡◌, ◌≤◌, ◌<◌, ◌^◌, length, ◌==◌};
ghost use Rattle.table.specs.Field.{OfController, OfPlace, OfMessage, Known, End, Size, SentCount, Gap, Served, Discarded, Degree, Incarnation, LiveCount, StableCount, PlaceIncarnation, PlaceNumber, Cause, Flag, MessageState, Sender, Receiver, SendingIncarnation, SendingNumber, Payload, place_head, message_head};
ghost use Rattle.table.specs.Change.{put};
ghost use Rattle.table.specs.Layout.{controllers, incarnations, places, messages, table_words, position};
ghost use Rattle.table.specs.Words.{state, words};
ghost use Rattle.table.specs.Numbering.{number_of, used, last_given, record_of, message_of};

pub mod layout;
mod status;

pub use status::Status;

// The lent table.
pub type Table = [u32; layout::TABLE_WORDS];

// The head: how many controllers the house has.
pub fn size(t: &Table) -> u32
    ensures { result ≡ state t.now Size }
{
    t[layout::SIZE]
}

pub fn set_size(t: &mut Table, x: u32)
    ensures { t.new ≡ words (put (state t.old) Size x) }
{
    t[layout::SIZE] = x;
}

pub fn set_sent_count(t: &mut Table, x: u32)
    ensures { t.new ≡ words (put (state t.old) SentCount x) }
{
    t[layout::SENT_COUNT] = x;
}

// How many intervals of c were discarded.
pub fn discarded(t: &Table, c: usize) -> u32
    requires { c < controllers }
    ensures { result ≡ state t.now (Discarded c) }
{
    t[layout::DISCARDED + c]
}

// The gap between checkpoints, 0 where there is no ceiling on replay.
pub fn gap(t: &Table) -> u32
    ensures { result ≡ state t.now Gap }
{
    t[layout::GAP]
}

pub fn set_gap(t: &mut Table, x: u32)
    ensures { t.new ≡ words (put (state t.old) Gap x) }
{
    t[layout::GAP] = x;
}

// The controller that the dispatcher served last.
pub fn served(t: &Table) -> u32
    ensures { result ≡ state t.now Served }
{
    t[layout::SERVED]
}

pub fn set_served(t: &mut Table, x: u32)
    ensures { t.new ≡ words (put (state t.old) Served x) }
{
    t[layout::SERVED] = x;
}

// A controller's own words.
pub fn degree(t: &Table, c: usize) -> u32
    requires { c < controllers }
    ensures { result ≡ state t.now (Degree c) }
{
    t[layout::DEGREE + c * layout::CONTROLLER_WORDS]
}

pub fn set_degree(t: &mut Table, c: usize, x: u32)
    requires { c < controllers }
    ensures { t.new ≡ words (put (state t.old) (Degree c) x) }
{
    t[layout::DEGREE + c * layout::CONTROLLER_WORDS] = x;
}

pub fn incarnation(t: &Table, c: usize) -> u32
    requires { c < controllers }
    ensures { result ≡ state t.now (Incarnation c) }
{
    t[layout::INCARNATION + c * layout::CONTROLLER_WORDS]
}

pub fn set_incarnation(t: &mut Table, c: usize, x: u32)
    requires { c < controllers }
    ensures { t.new ≡ words (put (state t.old) (Incarnation c) x) }
{
    t[layout::INCARNATION + c * layout::CONTROLLER_WORDS] = x;
}

pub fn live_count(t: &Table, c: usize) -> u32
    requires { c < controllers }
    ensures { result ≡ state t.now (LiveCount c) }
{
    t[layout::LIVE_COUNT + c * layout::CONTROLLER_WORDS]
}

pub fn set_live_count(t: &mut Table, c: usize, x: u32)
    requires { c < controllers }
    ensures { t.new ≡ words (put (state t.old) (LiveCount c) x) }
{
    t[layout::LIVE_COUNT + c * layout::CONTROLLER_WORDS] = x;
}

pub fn stable_count(t: &Table, c: usize) -> u32
    requires { c < controllers }
    ensures { result ≡ state t.now (StableCount c) }
{
    t[layout::STABLE_COUNT + c * layout::CONTROLLER_WORDS]
}

pub fn set_stable_count(t: &mut Table, c: usize, x: u32)
    requires { c < controllers }
    ensures { t.new ≡ words (put (state t.old) (StableCount c) x) }
{
    t[layout::STABLE_COUNT + c * layout::CONTROLLER_WORDS] = x;
}

// What `holder` knows of incarnation i of `owner`: the highest number known stable, and the number kept in the crash that
// ended it.
pub fn known(t: &Table, holder: usize, owner: usize, i: usize) -> u32
    requires { (holder < controllers) × (owner < controllers) × (i < incarnations) }
    ensures { result ≡ state t.now (Known holder owner i) }
{
    t[layout::KNOWN + holder * layout::ROWS_WORDS + owner * layout::INCARNATIONS + i]
}

pub fn set_known(t: &mut Table, holder: usize, owner: usize, i: usize, x: u32)
    requires { (holder < controllers) × (owner < controllers) × (i < incarnations) }
    ensures { t.new ≡ words (put (state t.old) (Known holder owner i) x) }
{
    t[layout::KNOWN + holder * layout::ROWS_WORDS + owner * layout::INCARNATIONS + i] = x;
}

pub fn end(t: &Table, holder: usize, owner: usize, i: usize) -> u32
    requires { (holder < controllers) × (owner < controllers) × (i < incarnations) }
    ensures { result ≡ state t.now (End holder owner i) }
{
    t[layout::ENDS + holder * layout::ROWS_WORDS + owner * layout::INCARNATIONS + i]
}

pub fn set_end(t: &mut Table, holder: usize, owner: usize, i: usize, x: u32)
    requires { (holder < controllers) × (owner < controllers) × (i < incarnations) }
    ensures { t.new ≡ words (put (state t.old) (End holder owner i) x) }
{
    t[layout::ENDS + holder * layout::ROWS_WORDS + owner * layout::INCARNATIONS + i] = x;
}

// Place p of controller c.
pub fn place_incarnation(t: &Table, c: usize, p: usize) -> u32
    requires { (c < controllers) × (p < places) }
    ensures { result ≡ state t.now (PlaceIncarnation c p) }
{
    t[layout::PLACE_INCARNATION + c * layout::CHAIN_WORDS + p * layout::PLACE_WORDS]
}

pub fn place_number(t: &Table, c: usize, p: usize) -> u32
    requires { (c < controllers) × (p < places) }
    ensures { result ≡ state t.now (PlaceNumber c p) }
{
    t[layout::PLACE_NUMBER + c * layout::CHAIN_WORDS + p * layout::PLACE_WORDS]
}

pub fn cause(t: &Table, c: usize, p: usize) -> u32
    requires { (c < controllers) × (p < places) }
    ensures { result ≡ state t.now (Cause c p) }
{
    t[layout::CAUSE + c * layout::CHAIN_WORDS + p * layout::PLACE_WORDS]
}

pub fn flag(t: &Table, c: usize, p: usize) -> u32
    requires { (c < controllers) × (p < places) }
    ensures { result ≡ state t.now (Flag c p) }
{
    t[layout::FLAG + c * layout::CHAIN_WORDS + p * layout::PLACE_WORDS]
}

pub fn set_flag(t: &mut Table, c: usize, p: usize, x: u32)
    requires { (c < controllers) × (p < places) }
    ensures { t.new ≡ words (put (state t.old) (Flag c p) x) }
{
    t[layout::FLAG + c * layout::CHAIN_WORDS + p * layout::PLACE_WORDS] = x;
}

// Message record r.
pub fn message_state(t: &Table, r: usize) -> u32
    requires { r < messages }
    ensures { result ≡ state t.now (MessageState r) }
{
    t[layout::MESSAGE_STATE + r * layout::MESSAGE_WORDS]
}

pub fn set_message_state(t: &mut Table, r: usize, x: u32)
    requires { r < messages }
    ensures { t.new ≡ words (put (state t.old) (MessageState r) x) }
{
    t[layout::MESSAGE_STATE + r * layout::MESSAGE_WORDS] = x;
}

pub fn sender(t: &Table, r: usize) -> u32
    requires { r < messages }
    ensures { result ≡ state t.now (Sender r) }
{
    t[layout::SENDER + r * layout::MESSAGE_WORDS]
}

pub fn receiver(t: &Table, r: usize) -> u32
    requires { r < messages }
    ensures { result ≡ state t.now (Receiver r) }
{
    t[layout::RECEIVER + r * layout::MESSAGE_WORDS]
}

pub fn sending_incarnation(t: &Table, r: usize) -> u32
    requires { r < messages }
    ensures { result ≡ state t.now (SendingIncarnation r) }
{
    t[layout::SENDING_INCARNATION + r * layout::MESSAGE_WORDS]
}

pub fn sending_number(t: &Table, r: usize) -> u32
    requires { r < messages }
    ensures { result ≡ state t.now (SendingNumber r) }
{
    t[layout::SENDING_NUMBER + r * layout::MESSAGE_WORDS]
}

pub fn payload(t: &Table, r: usize) -> u32
    requires { r < messages }
    ensures { result ≡ state t.now (Payload r) }
{
    t[layout::PAYLOAD + r * layout::MESSAGE_WORDS]
}

// Where a record, its vector, or a row of known words begins, for a part that is lent.
pub fn controller_at(c: usize) -> usize
    requires { c < controllers }
    ensures { result ≡ position (OfController c 0) }
{
    layout::CONTROLLERS_FROM + c * layout::CONTROLLER_WORDS
}

pub fn known_row_at(holder: usize, owner: usize) -> usize
    requires { (holder < controllers) × (owner < controllers) }
    ensures { result ≡ position (Known holder owner 0) }
{
    layout::KNOWN + holder * layout::ROWS_WORDS + owner * layout::INCARNATIONS
}

pub fn place_at(c: usize, p: usize) -> usize
    requires { (c < controllers) × (p ≤ places) }
    ensures { result ≡ position (OfPlace c p 0) }
{
    layout::PLACES_FROM + c * layout::CHAIN_WORDS + p * layout::PLACE_WORDS
}

pub fn place_vector_at(c: usize, p: usize) -> usize
    requires { (c < controllers) × (p < places) }
    ensures { result ≡ position (OfPlace c p place_head) }
{
    layout::PLACE_VECTOR + c * layout::CHAIN_WORDS + p * layout::PLACE_WORDS
}

pub fn message_at(r: usize) -> usize
    requires { r ≤ messages }
    ensures { result ≡ position (OfMessage r 0) }
{
    layout::MESSAGES_FROM + r * layout::MESSAGE_WORDS
}

pub fn message_vector_at(r: usize) -> usize
    requires { r < messages }
    ensures { result ≡ position (OfMessage r message_head) }
{
    layout::MESSAGE_VECTOR + r * layout::MESSAGE_WORDS
}

// Numbers: of the k-th live interval of c, counted from 1, where it fits a word; whether x is that number, whatever stands in the
// table; message records in use; the last message number given.
pub fn number_of(t: &Table, c: usize, k: u32) -> u32
    requires { (c < controllers) × (number_of (state t.now) c k < 2 ^ 32) }
    ensures { result ≡ number_of (state t.now) c k }
{
    discarded(t, c) + k
}

pub fn is_number_of(t: &Table, c: usize, k: u32, x: u32) -> bool
    requires { c < controllers }
    ensures { result ≡ (x == number_of (state t.now) c k) }
{
    x as usize == discarded(t, c) as usize + k as usize
}

pub fn records_used(t: &Table) -> u32
    ensures { result ≡ used (state t.now) }
{
    t[layout::SENT_COUNT]
}

pub fn last_given(t: &Table) -> u32
    ensures { result ≡ last_given (state t.now) }
{
    t[layout::SENT_COUNT]
}

// The record of message m, or the records in use where no such message is there.
pub fn find_record(t: &Table, m: u32) -> usize
    ensures { result ≡ record_of (state t.now) m }
{
    if (1 <= m) & (m <= last_given(t)) {
        (m - 1) as usize
    } else {
        records_used(t) as usize
    }
}

// And back: the number of the message in record r.
pub fn message_of(t: &Table, r: usize) -> u32
    requires { r < messages }
    ensures { result ≡ message_of (state t.now) r }
{
    r as u32 + 1
}

// The words of `s` are copied to a part that is lent for them.
pub fn copy_words(d: &mut [u32], s: &[u32])
    requires { length d.old ≡ length s.now }
    ensures { d.new ≡ s.now }
{
    d.copy_from_slice(s);
}
