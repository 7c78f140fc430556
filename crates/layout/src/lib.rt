// The record as bytes, as a C caller lends it (docs/RECORD.md, "As bytes"): 606 of them, part behind part.
#![tactic(auto)]

pub mod reading; // reading.rt: the parts of the record in lent bytes
pub mod writing; // writing.rt: parts of the record put into lent bytes

// Where the parts begin behind the map, each behind the one before it, and how many bytes there are.
pub const TYPES: usize = 144;

pub const CLOSED: usize = TYPES + keys::PLACES;

pub const COUNTS: usize = CLOSED + 18;

pub const HELD: usize = COUNTS + 144;

pub const QUEUE: usize = HELD + 144;

// How many bytes of the queue wait; from here on a byte for each number and flag.
pub const QUEUED: usize = QUEUE + 16;

pub const REPEATING: usize = QUEUED + 1;

pub const COUNTDOWN: usize = REPEATING + 1;

pub const SET: usize = COUNTDOWN + 1;

pub const RATE: usize = SET + 1;

pub const INDICATORS: usize = RATE + 1;

pub const FIRST_REPLY: usize = INDICATORS + 1;

pub const SECOND_REPLY: usize = FIRST_REPLY + 1;

pub const THIRD_REPLY: usize = SECOND_REPLY + 1;

// How many of the replies wait.
pub const REPLIES: usize = THIRD_REPLY + 1;

pub const SCANNING: usize = REPLIES + 1;

pub const WAITING: usize = SCANNING + 1;

pub const HANDOVER: usize = WAITING + 1;

pub const GIVEN: usize = HANDOVER + 1;

pub const SIZE: usize = GIVEN + 1;
