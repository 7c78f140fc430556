// Set 1. The top bit of a byte tells a release from a press.
#![tactic(auto, unfolding(crate::specs::Reader::in_set1))]

use crate::codes::{alone, behind_e0};
use crate::steps::{end, more};
use crate::{Answer, Event, Sequences};
use keys::mark_of;
use lookup::Set1;

impl Sequences for Set1 {
    fn mark() -> u8 {
        mark_of(1)
    }

    // Behind E1 stands nothing but PAUSE.
    fn read(state: u32, byte: u8) -> Answer {
        match (state, byte) {
            (0, 0xe0) => more(1),
            (0, 0xe1) => more(4),
            (0, _) => end(alone::<Set1>(byte < 128, byte % 128)),
            (1, _) => end(behind_e0::<Set1>(byte < 128, byte % 128)),
            (4, 0x1d) => more(5),
            (5, 0x45) => more(6),
            (6, 0xe1) => more(7),
            (7, 0x9d) => more(8),
            (8, 0xc5) => end(Event::PauseStruck),
            _ => end(Event::Unknown),
        }
    }
}
