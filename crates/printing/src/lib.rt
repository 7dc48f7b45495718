// The lines of answers.
#![tactic(auto)]

ghost use Rattle.std.specs.Prelude.{◌≡◌, ◌∷◌, ◌+◌, ◌*◌, ◌≤◌, length};
ghost use Rattle.lines.specs.Lines.{space, decimal, line_of, answer_line, bad_line};
ghost use Rattle.printing.specs.Parts.{number_room, answer_room, Written, Short};

use lines::{RADIX, ZERO};
use rules::Answer;

// Room for a space and a number.
const NUMBER_ROOM: usize = 1 + lines::MOST_DIGITS;

// Room for the line of any answer: the longest is the six letters of `rolled` with six numbers, and a line feed.
pub const ANSWER_ROOM: usize = 6 + 6 * NUMBER_ROOM + 1;

// Lines on their way out: they stand in the first `end` bytes of what is lent for them.
#[derive(Drop)]
pub struct Output<'a> {
    pub bytes: &'a mut [u8],
    pub end: usize,
    pub ghost fits: { end ≤ length bytes.now },
}

// How many digits `v` has.
fn digit_count(v: u32) -> usize
    ensures { result ≡ length (decimal v) }
{
    let mut rest = v;
    let mut n = 1;
    while RADIX <= rest {
        rest /= RADIX;
        n += 1;
    }
    n
}

impl<'a> Output<'a> {
    pub fn new(bytes: &'a mut [u8]) -> Self
        ensures empty { (result.bytes.now ≡ bytes.old) × (result.end ≡ 0) }
        ensures same_reference { result.bytes.ghost_name ≡ bytes.entry.ghost_name }
    {
        Output { bytes, end: 0 }
    }

    // Some bytes.
    fn word(&mut self, word: &[u8])
        requires { self.old.end + length word.now ≤ length self.old.bytes.now }
        ensures written { Written self.old.bytes.now self.old.end word.now self.new.bytes.now self.new.end }
        ensures same_reference { self.new.bytes.ghost_name ≡ self.old.bytes.ghost_name }
    {
        let end = self.end + word.len();
        self.bytes[self.end..end].copy_from_slice(word);
        self.end = end;
    }

    // A space and the digits of `v`.
    fn number(&mut self, v: u32)
        requires { self.old.end + number_room ≤ length self.old.bytes.now }
        ensures written { Written self.old.bytes.now self.old.end (space ∷ decimal v) self.new.bytes.now self.new.end }
        ensures same_reference { self.new.bytes.ghost_name ≡ self.old.bytes.ghost_name }
    {
        let last = self.end + digit_count(v);
        self.bytes[self.end] = lines::SPACE;
        let mut rest = v;
        let mut i = last;
        while RADIX <= rest {
            self.bytes[i] = ZERO + (rest % RADIX) as u8;
            rest /= RADIX;
            i -= 1;
        }
        self.bytes[i] = ZERO + rest as u8;
        self.end = last + 1;
    }

    // A line: a word and its values.
    fn line(&mut self, word: &[u8], values: &[u32])
        requires { self.old.end + (length word.now + number_room * length values.now + 1) ≤ length self.old.bytes.now }
        ensures written { Written self.old.bytes.now self.old.end (line_of word.now values.now) self.new.bytes.now self.new.end }
        ensures same_reference { self.new.bytes.ghost_name ≡ self.old.bytes.ghost_name }
    {
        self.word(word);
        for value in values {
            self.number(*value);
        }
        self.bytes[self.end] = lines::LINE_FEED;
        self.end += 1;
    }

    // The line of an answer.
    #[tactic(auto, using(crate::proofs::Writing::line_size), unfolding(lines::specs::Lines::answer_line, rules::specs::Report::report))]
    pub fn answer(&mut self, a: Answer)
        requires { self.old.end + answer_room ≤ length self.old.bytes.now }
        ensures written { Short self.old.bytes.now self.old.end (answer_line a) self.new.bytes.now self.new.end }
        ensures same_reference { self.new.bytes.ghost_name ≡ self.old.bytes.ghost_name }
    {
        match a {
            Answer::Done => self.line(b"done", &[]),
            Answer::Sent(m) => self.line(b"sent", &[m]),
            Answer::Released(m, mask) => self.line(b"released", &[m, mask]),
            Answer::Held(m, mask) => self.line(b"held", &[m, mask]),
            Answer::Delivered(m, i, x) => self.line(b"delivered", &[m, i, x]),
            Answer::Dropped(m, owner, i) => self.line(b"dropped", &[m, owner, i]),
            Answer::Waits(m) => self.line(b"waits", &[m]),
            Answer::Crashed(c, i, k, lost, replayed) => {
                self.line(b"crashed", &[c, i, k, lost, replayed])
            }
            Answer::Heard(b) => self.line(b"heard", &[b]),
            Answer::Rolled(b, k, undone, replayed, owner, i) => {
                self.line(b"rolled", &[b, k, undone, replayed, owner, i])
            }
            Answer::Refused(number) => self.line(b"refused", &[number]),
            Answer::SetReleased(mask) => self.line(b"released", &[mask]),
            Answer::SetHeld(mask) => self.line(b"held", &[mask]),
            Answer::Idle => self.line(b"idle", &[]),
        }
    }

    // The line `bad`.
    #[tactic(auto, using(crate::proofs::Writing::line_size), unfolding(lines::specs::Lines::bad_line))]
    pub fn bad(&mut self)
        requires { self.old.end + answer_room ≤ length self.old.bytes.now }
        ensures written { Short self.old.bytes.now self.old.end bad_line self.new.bytes.now self.new.end }
        ensures same_reference { self.new.bytes.ghost_name ≡ self.old.bytes.ghost_name }
    {
        self.line(b"bad", &[])
    }
}
