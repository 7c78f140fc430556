// The reader (docs/RULES.md, section 4): what the terminal finds in key bytes, one byte at a time.
#![tactic(auto)]

mod steps; // steps.rt: how a sequence goes on, and how it ends
mod codes; // codes.rt: what the codes of sets 1 and 2 say
mod set1; // set1.rt: the bytes of set 1
mod set2; // set2.rt: the bytes of set 2
mod set3; // set3.rt: the bytes of set 3

ghost use Rattle.std.specs.Prelude.{◌≡◌};
ghost use Rattle.keys.specs.Keys.{mark_of};
ghost use Rattle.basics.specs.Said.{Answers};
ghost use Rattle.reader.specs.Reader.{in_set, read_byte, answer_of, error_says, answer_says, answer_said, pressed_key, press_of};

use lookup::{Set, Set1, Set2, Set3};
use steps::end;

// What a byte tells.
#[derive(Clone, Copy, PartialEq, Eq)]
pub enum Event {
    // The sequence is not at its end.
    More,
    // A key went down, or repeats.
    Pressed(u8),
    // A key came up.
    Released(u8),
    // PAUSE, which has no release in sets 1 and 2.
    PauseStruck,
    // Shift wrapping, or the end of Ctrl-Pause: no key moved.
    Wrapping,
    // The dock's queue was full and something was lost.
    Overrun,
    // No code of this set.
    Unknown,
}

impl Event {
    // The key that a press carries.
    pub fn pressed_key(self) -> Option<u8>
        ensures { result ≡ pressed_key self }
    {
        match self {
            Event::Pressed(key) => Some(key),
            _ => None,
        }
    }
}

// Why a byte is refused, with the state in which it came: a refusal moves none.
#[derive(Clone, Copy, PartialEq, Eq)]
pub enum ReadError {
    // No such state.
    BadState(u32),
    // No such set.
    BadSet(u32),
}

impl ReadError {
    // Its number in the table of refusals (docs/RULES.md, section 9).
    pub fn number(self) -> u8
        ensures { result ≡ (error_says self).number }
    {
        match self {
            ReadError::BadState(_) => 9,
            ReadError::BadSet(_) => 7,
        }
    }
}

// The reader's answer: what the byte tells, and the state in which the next byte is to be read.
#[derive(Clone, Copy)]
pub struct Answer {
    pub state: u32,
    pub event: Event,
}

// A press taken out of an answer: the key, if there was a press, and the next state.
#[derive(Clone, Copy)]
pub struct Press {
    pub state: u32,
    pub key: Option<u8>,
}

// A set, by the sequences that the reader finds in it.
trait Sequences: Set {
    // The overrun mark.
    fn mark() -> u8
        ensures { result ≡ mark_of Self.number };

    // A byte in a state, if it is not the mark.
    fn read(state: u32, byte: u8) -> Answer
        ensures { result ≡ in_set Self.number state byte };
}

// A byte in a state of a set.
#[tactic(auto, unfolding(crate::specs::Reader::read_byte))]
fn read_byte<S: Sequences>(state: u32, byte: u8) -> Answer
    ensures { result ≡ read_byte S.number state byte }
{
    if byte == S::mark() {
        return end(Event::Overrun);
    }
    S::read(state, byte)
}

// The reader: set 1 to 3, state 0 to 14 (0 to begin with, then what the answer before gave), and a byte. The set and the state are
// numbers here, as they are for C, which keeps the state between bytes; the set is looked at once.
#[tactic(auto, unfolding(crate::specs::Reader::answer_of, crate::specs::Reader::answer_said))]
pub fn read(set: u32, state: u32, byte: u8) -> Result<Answer, ReadError>
    ensures { Answers answer_says result (answer_of set state byte) (answer_said set state byte) }
{
    if 14 < state {
        return Err(ReadError::BadState(state));
    }
    match set {
        1 => Ok(read_byte::<Set1>(state, byte)),
        2 => Ok(read_byte::<Set2>(state, byte)),
        3 => Ok(read_byte::<Set3>(state, byte)),
        _ => Err(ReadError::BadSet(state)),
    }
}

// For a caller that wants presses alone: the answer is taken apart at once, and anything else passed over.
pub fn read_press(set: u32, state: u32, byte: u8) -> Result<Press, ReadError>
    ensures { result ≡ press_of (answer_of set state byte) }
{
    let answer = read(set, state, byte)?;
    Ok(Press {
        state: answer.state,
        key: answer.event.pressed_key(),
    })
}
