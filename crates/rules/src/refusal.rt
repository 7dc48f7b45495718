// What refuses a step. specs/Refusal.antt, include/goulvizad.h and the second implementation have the same names and numbers.

ghost use Rattle.std.specs.Prelude.{◌≡◌};
ghost use Rattle.rules.specs.Refused.{number, answer_of};

use crate::Answer;

#[derive(Clone, Copy, PartialEq, Eq)]
pub enum Refusal {
    // The host that lends the table.
    Length = 1,
    Form = 2,
    // The host that lends the ledger.
    Ledger = 14,
    // The caller naming things.
    Controller = 3,
    Message = 4,
    Degree = 5,
    SameController = 6,
    // The order of steps.
    State = 7,
    Senders = 15,
    LogCount = 8,
    NoSuchCrash = 9,
    AlreadyHeard = 10,
    // Too much used.
    MessagesUsedUp = 11,
    PlacesUsedUp = 12,
    IncarnationsUsedUp = 13,
    LedgerUsedUp = 18,
}

impl From<Refusal> for u32 {
    ghost from_gives = { λ refusal n. n ≡ number refusal };

    fn from(refusal: Refusal) -> u32 {
        refusal as u32
    }
}

// A step that was refused answers so.
impl From<Result<Answer, Refusal>> for Answer {
    ghost from_gives = { λ outcome a. a ≡ answer_of outcome };

    fn from(outcome: Result<Answer, Refusal>) -> Answer {
        match outcome {
            Ok(a) => a,
            Err(refusal) => Answer::Refused(u32::from(refusal)),
        }
    }
}
