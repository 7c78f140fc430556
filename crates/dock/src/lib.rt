// The dock (docs/RULES.md): why a call is refused, what a read gives, and how every accepted call ends. What each call does is said in
// specs/, and done in place by `scan`, `swap` and `wire`. A refused call leaves the record as it was.
#![tactic(auto)]

ghost use Rattle.std.specs.Prelude.{◌≡◌};
ghost use Rattle.dock.specs.Answers.{refusal_number};

pub mod closing; // closing.rt: how every accepted call ends

// Why a call is refused: each refusal has its number in the table of section 9.
#[derive(Clone, Copy, PartialEq, Eq)]
pub enum Refusal {
    ScanLength = 1, // a scan that is not 18 bytes
    MapLength = 2, // a map that is not 144 bytes
    MapEntry = 3, // a map entry over 125
    MapDouble = 4, // a key twice in the map
    FrameNumber = 5, // a frame number over 2047
    BadRecord = 9, // a part of the record is out of its range
}

impl Refusal {
    // The number that a refusal has for those who call from outside.
    pub fn number(self) -> u8
        ensures { result ≡ refusal_number self }
    {
        self as u8
    }
}

// What a read gives, where something waits.
#[derive(Clone, Copy, PartialEq, Eq)]
pub enum Given {
    Reply(u8), // the oldest reply
    KeyByte(u8), // the oldest key byte
}
