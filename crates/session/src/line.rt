// The bytes of a line that hasn't ended.
#![tactic(auto)]

ghost use Rattle.std.specs.Prelude.{◌≡◌, [], ◌∷◌, ◌++◌, take};
ghost use Rattle.session.specs.Taking.{line_room};

use lines::LONGEST_LINE;
use std::marker::Model;

// Room for a line: a byte more than it may have only says that there were more.
const LINE_ROOM: usize = LONGEST_LINE + 1;

// The first `count` bytes of its buffer.
#[derive(Drop)]
pub struct Line {
    bytes: [u8; LINE_ROOM],
    count: usize,
}

impl Model for Line {
    ghost use Rattle.std.specs.Prelude.{List, ℕ, ◌≤◌, take};
    ghost use Rattle.session.specs.Taking.{line_room};

    ghost Value = { List ℕ };

    ghost view = { λ line. take line.count line.bytes };

    ghost invariant = { λ line. line.count ≤ line_room };
}

impl Line {
    pub fn new() -> Self
        ensures { result ≡ [] }
    {
        Line {
            bytes: [0; LINE_ROOM],
            count: 0,
        }
    }

    // One byte more, where there is room.
    pub fn push(&mut self, b: u8)
        ensures { self.new ≡ take line_room (self.old ++ b ∷ []) }
    {
        if self.count < LINE_ROOM {
            self.bytes[self.count] = b;
            self.count += 1;
        }
    }

    pub fn clear(&mut self)
        ensures { self.new ≡ [] }
    {
        self.count = 0;
    }

    pub fn as_slice(&self) -> &[u8]
        ensures { result.now ≡ self.now }
    {
        &self.bytes[..self.count]
    }
}
