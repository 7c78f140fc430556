// What a code of set 1 or 2 says: the two are read alike, but for four bytes and the tables of their keys.
ghost use Rattle.std.specs.Prelude.{◌≡◌, ◌+◌};
ghost use Rattle.keys.specs.Keys.{code_in, alt_print, left_wrap, right_wrap};
ghost use Rattle.keys.specs.Named.{pause_key};
ghost use Rattle.reader.specs.Reader.{heard};

use crate::Event;
use crate::steps::{ctrl_pause, moves};
use lookup::{Prefixed, Set1, Set2};

// The bytes that stand for more than a key of the table: PRINT with ALT, sent alone; and behind E0 what wraps another code, as the left
// SHIFT does and as the right one does, and PAUSE with CTRL.
#[derive(Clone, Copy)]
pub struct Special {
    alt_print: u8,
    left_wrap: u8,
    right_wrap: u8,
    ctrl_pause: u8,
}

// A set with such bytes.
pub trait Codes: Prefixed {
    fn special() -> Special
        ensures print { result.alt_print ≡ alt_print Self.number }
        ensures left { 0xe000 + result.left_wrap ≡ left_wrap Self.number }
        ensures right { 0xe000 + result.right_wrap ≡ right_wrap Self.number }
        ensures pause { 0xe000 + result.ctrl_pause ≡ code_in Self.number pause_key };
}

impl Codes for Set1 {
    #[tactic(auto, unfolding(keys::specs::Keys::code_in, keys::specs::Keys::row_of, keys::specs::Keys::rows))]
    fn special() -> Special {
        Special {
            alt_print: 0x54,
            left_wrap: 0x2a,
            right_wrap: 0x36,
            ctrl_pause: 0x46,
        }
    }
}

impl Codes for Set2 {
    #[tactic(auto, unfolding(keys::specs::Keys::code_in, keys::specs::Keys::row_of, keys::specs::Keys::rows))]
    fn special() -> Special {
        Special {
            alt_print: 0x84,
            left_wrap: 0x12,
            right_wrap: 0x59,
            ctrl_pause: 0x7e,
        }
    }
}

// What a byte sent alone says.
#[tactic(auto, unfolding(crate::specs::Reader::heard), using(crate::proofs::Found::moves_found))]
pub fn alone<S: Codes>(down: bool, byte: u8) -> Event
    ensures { result ≡ heard S.number down byte }
{
    if byte == S::special().alt_print {
        return moves(down, Some(keys::PRINT));
    }
    moves(down, S::key(byte))
}

// What a byte behind E0 says.
#[tactic(auto, unfolding(crate::specs::Reader::heard), using(crate::proofs::Found::moves_found))]
pub fn behind_e0<S: Codes>(down: bool, byte: u8) -> Event
    ensures { result ≡ heard S.number down (0xe000 + byte) }
{
    let special = S::special();
    if byte == special.left_wrap || byte == special.right_wrap {
        return Event::Wrapping;
    }
    if byte == special.ctrl_pause {
        return ctrl_pause(down);
    }
    moves(down, S::key_behind_e0(byte))
}
