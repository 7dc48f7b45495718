// The lent table's positions, sizes and limits by name: the only word positions in the code. The definitions have the same
// numbers in specs/Layout.antt; every contract over the table ties the two.

// How many there are of each.
pub const CONTROLLERS: usize = 8;

pub const INCARNATIONS: usize = 16;

pub const PLACES: usize = 64;

pub const MESSAGES: usize = 128;

// Words of each record, and where its vector starts.
pub const HEAD_WORDS: usize = 16;

pub const CONTROLLER_WORDS: usize = 4;

pub const VECTOR_WORDS: usize = 2 * CONTROLLERS;

pub const PLACE_HEAD: usize = 4;

pub const PLACE_WORDS: usize = PLACE_HEAD + VECTOR_WORDS;

pub const MESSAGE_HEAD: usize = 6;

pub const MESSAGE_WORDS: usize = MESSAGE_HEAD + VECTOR_WORDS;

pub const ROWS_WORDS: usize = CONTROLLERS * INCARNATIONS;

pub const CHAIN_WORDS: usize = PLACES * PLACE_WORDS;

// The regions, one after the other.
pub const CONTROLLERS_FROM: usize = HEAD_WORDS;

pub const KNOWN: usize = CONTROLLERS_FROM + CONTROLLERS * CONTROLLER_WORDS;

pub const ENDS: usize = KNOWN + CONTROLLERS * ROWS_WORDS;

pub const PLACES_FROM: usize = ENDS + CONTROLLERS * ROWS_WORDS;

pub const MESSAGES_FROM: usize = PLACES_FROM + CONTROLLERS * CHAIN_WORDS;

pub const TABLE_WORDS: usize = MESSAGES_FROM + MESSAGES * MESSAGE_WORDS;

// The last incarnation, and the highest interval number.
pub const LAST_INCARNATION: u32 = 15;

pub const LAST_NUMBER: u32 = 64;

// The largest gap between checkpoints that can be set.
pub const LAST_GAP: u32 = 64;

// The highest number in the word of the controller last served.
pub const LAST_SERVED: u32 = 7;

// The receiver that is no controller: the desk.
pub const DESK: u32 = 8;

// The head.
pub const SIZE: usize = 0;

pub const SENT_COUNT: usize = 1;

pub const SPARE: usize = 2;

pub const DISCARDED: usize = 3;

pub const GAP: usize = 11;

pub const SERVED: usize = 12;

pub const SPARE_AGAIN: usize = 13;

// The words of a controller's record, and where those of controller c stand, at + c * CONTROLLER_WORDS.
pub const DEGREE_WORD: usize = 0;

pub const INCARNATION_WORD: usize = 1;

pub const LIVE_COUNT_WORD: usize = 2;

pub const STABLE_COUNT_WORD: usize = 3;

pub const DEGREE: usize = CONTROLLERS_FROM + DEGREE_WORD;

pub const INCARNATION: usize = CONTROLLERS_FROM + INCARNATION_WORD;

pub const LIVE_COUNT: usize = CONTROLLERS_FROM + LIVE_COUNT_WORD;

pub const STABLE_COUNT: usize = CONTROLLERS_FROM + STABLE_COUNT_WORD;

// The words of a place's record, and where those of place p of controller c stand, at + c * CHAIN_WORDS + p * PLACE_WORDS.
pub const PLACE_INCARNATION_WORD: usize = 0;

pub const PLACE_NUMBER_WORD: usize = 1;

pub const CAUSE_WORD: usize = 2;

pub const FLAG_WORD: usize = 3;

pub const PLACE_INCARNATION: usize = PLACES_FROM + PLACE_INCARNATION_WORD;

pub const PLACE_NUMBER: usize = PLACES_FROM + PLACE_NUMBER_WORD;

pub const CAUSE: usize = PLACES_FROM + CAUSE_WORD;

pub const FLAG: usize = PLACES_FROM + FLAG_WORD;

pub const PLACE_VECTOR: usize = PLACES_FROM + PLACE_HEAD;

// The words of a message's record, and where those of record r stand, at + r * MESSAGE_WORDS.
pub const STATE_WORD: usize = 0;

pub const SENDER_WORD: usize = 1;

pub const RECEIVER_WORD: usize = 2;

pub const SENDING_INCARNATION_WORD: usize = 3;

pub const SENDING_NUMBER_WORD: usize = 4;

pub const PAYLOAD_WORD: usize = 5;

pub const MESSAGE_STATE: usize = MESSAGES_FROM + STATE_WORD;

pub const SENDER: usize = MESSAGES_FROM + SENDER_WORD;

pub const RECEIVER: usize = MESSAGES_FROM + RECEIVER_WORD;

pub const SENDING_INCARNATION: usize = MESSAGES_FROM + SENDING_INCARNATION_WORD;

pub const SENDING_NUMBER: usize = MESSAGES_FROM + SENDING_NUMBER_WORD;

pub const PAYLOAD: usize = MESSAGES_FROM + PAYLOAD_WORD;

pub const MESSAGE_VECTOR: usize = MESSAGES_FROM + MESSAGE_HEAD;
