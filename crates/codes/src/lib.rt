// The codes of keys (docs/RULES.md, section 3): the bytes that a press, a release or a repeat of a key sends. Here are the definitions and
// the keys with one form; which form a key takes is in `forms`, and the bytes of any action in `sequences`.
#![tactic(auto)]

use std::marker::Model;

// A set and a key are bytes, and no types of their own: what is promised (`encode`) holds of every byte, and no caller need show that its
// byte is one.

pub mod bytes; // bytes.rt: bytes put one after another
pub mod rows; // rows.rt: what a key's number and its type say
pub mod plain; // plain.rt: the bytes of an action of a key with one form

// What a key does: an event of the rules. Here it is an action, since the reader's Event is what bytes tell. And a key's type is
// called kind, since `type` is a reserved word.
#[derive(Clone, Copy, PartialEq, Eq)]
pub enum Action {
    Press,
    Release,
    Repeat,
}

// The shape that a key's bytes take by the modifiers and Num Lock.
#[derive(Clone, Copy, PartialEq, Eq)]
pub enum Form {
    // The code alone.
    Plain,
    // Wrapped, so that the SHIFTs that are held seem not to be.
    ShiftLeft,
    ShiftRight,
    ShiftBoth,
    // Wrapped, so that a SHIFT seems to be held: cursor keys under Num Lock, and PRINT by itself.
    NumLock,
    // The other form of PRINT, with ALT, and of PAUSE, with CTRL.
    Other,
}

// The bytes of one action, 8 at most: the first `length` of `bytes`. An array and a length, since there is no heap.
#[derive(Clone, Copy)]
pub struct Sequence {
    pub bytes: [u8; 8],
    pub length: usize,
}

impl Model for Sequence {
    ghost use Rattle.std.specs.Prelude.{◌≤◌};
    ghost use Rattle.codes.specs.Places.{Places};

    ghost Value = { Places };

    ghost view = { λ s. record { bytes = s.bytes; length = s.length } };

    ghost invariant = { λ s. s.length ≤ 8 };

    ghost inverse = { λ s. record { bytes = s.bytes; length = s.length } };
}
