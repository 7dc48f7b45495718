// Lines of text: what they are made of, as specs/Lines.antt has it. `parsing` reads them and `printing` writes them.
#![tactic(auto)]

pub const SPACE: u8 = b' ';

pub const LINE_FEED: u8 = b'\n';

pub const ZERO: u8 = b'0';

// How many bytes a line has at most, without its line feed.
pub const LONGEST_LINE: usize = 64;

pub const MOST_DIGITS: usize = 10;

pub const RADIX: u32 = 10;

// How many numbers a step has at most.
pub const MOST_NUMBERS: usize = 3;
