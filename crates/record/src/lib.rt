// The dock's record (docs/RULES.md, sections 5 to 8 and 11; docs/RECORD.md lists the range of every part): five arrays, and the rest. A key
// or a command with 0 for none stays a number, and a held key's flag a byte, since C lends the record as bytes: flags, types and counts may
// be any byte, and are put back as they were lent.
#![tactic(auto)]

use contacts::{Columns, Counts};
use queue::Queue;
use replies::Replies;

pub mod power; // power.rt: the record at power-on
pub mod held; // held.rt: the flags of the held keys

// A key, or 0, for each position of a panel.
pub type Map = [u8; 144];

// A flag for each key, by its number.
pub type Held = [u8; 144];

// A type for each key, by its number.
pub type Types = [u8; keys::PLACES];

// What the host has chosen.
#[derive(Clone, Copy)]
pub struct Mode {
    pub set: u8, // 1 to 3
    pub rate: u8, // repeat rate and delay, as F3 gives them: 0 to 127
    pub indicators: u8, // 1 Scroll, 2 Num, 4 Caps, added up
}

// What goes to the terminal.
#[derive(Clone, Copy)]
pub struct Outgoing {
    pub queue: Queue, // the key bytes that wait
    pub repeating: u8, // the key that repeats, 0 for none
    pub countdown: u8, // the scans until its next repeat: 0 to 240
}

// All but the arrays.
#[derive(Clone, Copy)]
pub struct Rest {
    pub outgoing: Outgoing,
    pub mode: Mode,
    pub replies: Replies, // the replies that wait
    pub scanning: bool,
    pub waiting: u8, // the command that waits for its value, 0 for none
    pub handover: bool, // keys of a panel that was taken away are still to be released
    pub given: u8, // the last byte given that was not FE; FE before there is one
}

// All that the dock knows. Arrays side by side and no struct for each key or position: so the bytes lie as C lends them, and a loop takes
// sixteen at a time.
#[derive(Clone, Copy)]
pub struct Dock {
    pub map: Map, // the key at each position, 0 for none
    pub closed: Columns, // the contacts as they count
    pub counts: Counts, // for each position the counted scans in a row that showed it otherwise
    pub held: Held, // by key number: 0 not held, else held; a place that is no key's is never set
    pub types: Types, // the set 3 type of each key
    pub rest: Rest,
}
