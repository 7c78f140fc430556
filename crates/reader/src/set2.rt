// Set 2. F0 goes before the code of a release.
#![tactic(auto, unfolding(crate::specs::Reader::in_set2))]

use crate::codes::{alone, behind_e0};
use crate::steps::{end, more};
use crate::{Answer, Event, Sequences};
use keys::mark_of;
use lookup::Set2;

impl Sequences for Set2 {
    fn mark() -> u8 {
        mark_of(2)
    }

    // Behind E1 stands nothing but PAUSE.
    fn read(state: u32, byte: u8) -> Answer {
        match (state, byte) {
            (0, 0xe0) => more(1),
            (0, 0xf0) => more(2),
            (0, 0xe1) => more(4),
            (0, _) => end(alone::<Set2>(true, byte)),
            (1, 0xf0) => more(3),
            (1, _) => end(behind_e0::<Set2>(true, byte)),
            (2, _) => end(alone::<Set2>(false, byte)),
            (3, _) => end(behind_e0::<Set2>(false, byte)),
            (4, 0x14) => more(9),
            (9, 0x77) => more(10),
            (10, 0xe1) => more(11),
            (11, 0xf0) => more(12),
            (12, 0x14) => more(13),
            (13, 0xf0) => more(14),
            (14, 0x77) => end(Event::PauseStruck),
            _ => end(Event::Unknown),
        }
    }
}
