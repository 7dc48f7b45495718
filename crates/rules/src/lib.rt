// What is asked of a house and what it answers. The rules themselves are definitions, in specs/.
#![tactic(auto)]

mod refusal;

pub use refusal::Refusal;

// A step, by its letter in document 01; W4 names none for its own.
#[derive(Clone, Copy)]
pub enum Command {
    // O n k
    Open(u32, u32),
    // K c k
    SetDegree(u32, u32),
    // S s r p
    Send(u32, u32, u32),
    // R m
    Release(u32),
    // D m
    Deliver(u32),
    // L c q
    Log(u32, u32),
    // C c
    Checkpoint(u32),
    // T a b
    Tell(u32, u32),
    // X c
    Crash(u32),
    // H b a t: hearer, owner of the crash, incarnation
    Hear(u32, u32, u32),
    // the gap Q between checkpoints
    SetGap(u32),
}

// The answer to a step, or to a call beside it. specs/Report.antt gives each its word, number and values.
#[derive(Clone, Copy)]
pub enum Answer {
    Done,
    // message
    Sent(u32),
    // message, mask
    Released(u32, u32),
    // message, mask
    Held(u32, u32),
    // message, incarnation and number of the new interval
    Delivered(u32, u32, u32),
    // message, controller and ended incarnation of the crash that condemns it
    Dropped(u32, u32, u32),
    // message
    Waits(u32),
    // controller, ended incarnation, kept number, intervals lost, intervals to replay
    Crashed(u32, u32, u32, u32, u32),
    // controller
    Heard(u32),
    // controller, kept number, intervals undone, intervals to replay, controller and ended incarnation of the crash heard
    Rolled(u32, u32, u32, u32, u32, u32),
    // refusal number
    Refused(u32),
    // of a set: union of the masks
    SetReleased(u32),
    // of a set: union of the masks
    SetHeld(u32),
    // of the dispatcher: nobody was served
    Idle,
}

// What would come of delivering a released message.
#[derive(Clone, Copy)]
pub enum Prospect {
    // controller and ended incarnation of the crash that condemns it
    WouldDrop(u32, u32),
    WouldWait,
    NoPlaceLeft,
    WouldBegin,
}
