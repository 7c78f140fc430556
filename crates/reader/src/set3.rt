// Set 3. F0 goes before the code of a release; there is no E0, no wrapping, and PAUSE is a key like any other.
#![tactic(auto, unfolding(crate::specs::Reader::in_set3), using(crate::proofs::Found::moves_found))]

use crate::steps::{end, more, moves};
use crate::{Answer, Event, Sequences};
use keys::mark_of;
use lookup::{Set, Set3};

impl Sequences for Set3 {
    fn mark() -> u8 {
        mark_of(3)
    }

    fn read(state: u32, byte: u8) -> Answer {
        match (state, byte) {
            (0, 0xf0) => more(2),
            (0, _) => end(moves(true, Set3::key(byte))),
            (2, _) => end(moves(false, Set3::key(byte))),
            _ => end(Event::Unknown),
        }
    }
}
