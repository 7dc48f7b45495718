// Message records, what refuses a step on one, and the step that fills one: send.
#![tactic(auto)]

ghost use Rattle.std.specs.Prelude.{◌≡◌, ◌<◌, length};
ghost use Rattle.base.specs.Cases.{first_of};
ghost use Rattle.table.specs.Field.{OfMessage};
ghost use Rattle.table.specs.Change.{put_part};
ghost use Rattle.table.specs.Layout.{messages, message_words};
ghost use Rattle.table.specs.Words.{state, words};
ghost use Rattle.table.specs.Numbering.{used, next_message};
ghost use Rattle.rules.specs.Limits.{house};
ghost use Rattle.rules.specs.Vector.{place_vector, filtered};
ghost use Rattle.rules.specs.Form.{state_held};
ghost use Rattle.rules.specs.Shared.{newest_place};
ghost use Rattle.rules.specs.Steps.{after, message_record, sent, records_full, send_refusals, message_refusals, step_send};
ghost use Rattle.rules.specs.Step.{out, written};
ghost use Rattle.rules.specs.Refused.{refusal_of, answer_of};
ghost use Rattle.rules.specs.declared.Answer.TheVariants.{Sent};
ghost use Rattle.laws.specs.Answering.{Lent};
ghost use Rattle.laws.specs.Chain.{Chain};

use rules::{Answer, Refusal};
use table::{Status, Table, layout};

// What is sent: the payload, from the sender to the receiver, with the sending interval's incarnation, number and
// vector.
#[derive(Clone, Copy)]
pub struct Message {
    pub sender: u32,
    pub receiver: u32,
    pub incarnation: u32,
    pub number: u32,
    pub payload: u32,
    pub vector: vector::Vector,
}

// The words of a message record, lent from inside the table.
pub fn write_message(d: &mut [u32], state: u32, it: &Message)
    requires { length d.old ≡ message_words }
    ensures { d.new ≡ message_record state it.now.sender it.now.receiver it.now.incarnation it.now.number it.now.payload it.now.vector }
{
    d[layout::STATE_WORD] = state;
    d[layout::SENDER_WORD] = it.sender;
    d[layout::RECEIVER_WORD] = it.receiver;
    d[layout::SENDING_INCARNATION_WORD] = it.incarnation;
    d[layout::SENDING_NUMBER_WORD] = it.number;
    d[layout::PAYLOAD_WORD] = it.payload;
    let from = layout::MESSAGE_HEAD;
    let to = layout::MESSAGE_WORDS;
    vector::write_vector(&mut d[from..to], it.vector);
}

// The words of record r, of a message that is held.
pub fn write_held(t: &mut Table, r: usize, it: &Message)
    requires { r < messages }
    ensures { t.new ≡ words (put_part (state t.old) (OfMessage r 0) 0 (message_record state_held it.now.sender it.now.receiver it.now.incarnation it.now.number it.now.payload it.now.vector)) }
{
    let from = table::message_at(r);
    let to = from + layout::MESSAGE_WORDS;
    write_message(&mut t[from..to], Status::Held as u32, it);
}

// Whether no record is left for a message.
pub fn records_full(t: &Table) -> bool
    ensures { result ≡ records_full house (state t.now) }
{
    layout::MESSAGES as u32 <= table::records_used(t)
}

// What refuses a message from the sender to the receiver.
pub fn check_send(t: &Table, sender: u32, receiver: u32) -> Result<(), Refusal>
    ensures { refusal_of result ≡ first_of (send_refusals house (state t.now) sender receiver) }
{
    let n = table::size(t);
    if (n <= sender) | ((n <= receiver) & (receiver != layout::DESK)) {
        return Err(Refusal::Controller);
    }
    if sender == receiver {
        return Err(Refusal::SameController);
    }
    if records_full(t) {
        return Err(Refusal::MessagesUsedUp);
    }
    Ok(())
}

// The newest vector of c, filtered for c.
pub fn newest_vector(t: &Table, c: usize) -> vector::Vector
    requires { Chain (state t.now) c }
    ensures { result ≡ filtered (state t.now) c (place_vector (state t.now) c (newest_place (state t.now) c)) }
{
    let live = table::live_count(t, c) as usize;
    let v = vector::place_vector(t, c, live - 1);
    vector::filter_vector(t, c, v)
}

// A message of the sender's newest interval goes into the first unused record.
pub fn send_newest(t: &mut Table, sender: u32, receiver: u32, payload: u32) -> Answer
    requires { Chain (state t.old) sender × (used (state t.old) < messages) }
    ensures { out result t.new ≡ written (after (Sent (next_message (state t.old))) (sent (state t.old) sender receiver payload)) }
{
    let c = sender as usize;
    let newest = table::live_count(t, c) as usize - 1;
    let message = Message {
        sender,
        receiver,
        incarnation: table::place_incarnation(t, c, newest),
        number: table::place_number(t, c, newest),
        payload,
        vector: newest_vector(t, c),
    };
    let r = table::records_used(t) as usize;
    let m = table::last_given(t) + 1;
    write_held(t, r, &message);
    table::set_sent_count(t, m);
    Answer::Sent(m)
}

// S s r p, the sender, the receiver and the payload, on a table in form.
pub fn send(t: &mut Table, sender: u32, receiver: u32, payload: u32) -> Result<Answer, Refusal>
    requires { Lent t.old }
    ensures { out (answer_of result) t.new ≡ written (step_send house (state t.old) sender receiver payload) }
{
    check_send(t, sender, receiver)?;
    Ok(send_newest(t, sender, receiver, payload))
}

// What refuses a step on the message in record r, which must be in the wanted state.
pub fn check_message(t: &Table, r: usize, wanted: u32) -> Result<(), Refusal>
    requires { Lent t.now }
    ensures { refusal_of result ≡ first_of (message_refusals (state t.now) r wanted) }
{
    if table::records_used(t) as usize <= r {
        return Err(Refusal::Message);
    }
    if table::message_state(t, r) != wanted {
        return Err(Refusal::State);
    }
    Ok(())
}
