// The number and the values of an answer, as the C interface gives them.
#![tactic(auto)]

ghost use Rattle.std.specs.Prelude.{◌≡◌};
ghost use Rattle.rules.specs.Report.{report};
ghost use Rattle.reporting.specs.Values.{value_words};

use rules::Answer;

// How many words the value buffer has.
pub const VALUES: usize = 6;

// The number of an answer, and its values with zeros after them.
#[tactic(auto, unfolding(crate::specs::Values::value_words, base::specs::Lists::tab, rules::specs::Report::report))]
pub fn report(a: Answer) -> (u32, [u32; VALUES])
    ensures { (result.0 ≡ (report a).number) × (result.1 ≡ value_words a) }
{
    match a {
        Answer::Done => (0, [0; VALUES]),
        Answer::Sent(m) => (1, [m, 0, 0, 0, 0, 0]),
        Answer::Released(m, mask) => (2, [m, mask, 0, 0, 0, 0]),
        Answer::Held(m, mask) => (3, [m, mask, 0, 0, 0, 0]),
        Answer::Delivered(m, i, x) => (4, [m, i, x, 0, 0, 0]),
        Answer::Dropped(m, owner, i) => (5, [m, owner, i, 0, 0, 0]),
        Answer::Waits(m) => (6, [m, 0, 0, 0, 0, 0]),
        Answer::Crashed(c, i, k, lost, replayed) => (7, [c, i, k, lost, replayed, 0]),
        Answer::Heard(b) => (8, [b, 0, 0, 0, 0, 0]),
        Answer::Rolled(b, k, undone, replayed, owner, i) => {
            (9, [b, k, undone, replayed, owner, i])
        }
        Answer::Refused(number) => (10, [number, 0, 0, 0, 0, 0]),
        Answer::SetReleased(mask) => (11, [mask, 0, 0, 0, 0, 0]),
        Answer::SetHeld(mask) => (12, [mask, 0, 0, 0, 0, 0]),
        Answer::Idle => (13, [0; VALUES]),
    }
}

// An answer's values go to a value buffer, and its number is returned.
pub fn give_answer(a: Answer, values: &mut [u32; VALUES]) -> u32
    ensures { (result ≡ (report a).number) × (values.new ≡ value_words a) }
{
    let (number, words) = report(a);
    *values = words;
    number
}
