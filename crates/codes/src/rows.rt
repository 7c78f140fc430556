// What a key's number and its type say: whether it has a code, whether a release is sent, and whether it repeats.
ghost use Rattle.std.specs.Prelude.{◌≡◌};
ghost use Rattle.codes.specs.Codes.{has_code, sends_release, may_repeat};

use keys::{FIRST_MEDIA, MAKE_BREAK, PAUSE, TYPEMATIC, TYPEMATIC_MAKE_BREAK};

// The key has a code in the set. By its number and not by the table: most who ask have none at hand, and ask to do without one.
pub fn has_code(set: u8, key: u8) -> bool
    ensures { result ≡ has_code set key }
{
    set != 3 || key < FIRST_MEDIA
}

// A release is sent.
#[tactic(auto, unfolding(crate::specs::Codes::sends_release))]
pub fn sends_release(set: u8, kind: u8) -> bool
    ensures { result ≡ sends_release set kind }
{
    set != 3 || kind == MAKE_BREAK || kind == TYPEMATIC_MAKE_BREAK
}

// A key of this type repeats while it is held.
#[tactic(auto, unfolding(crate::specs::Codes::may_repeat))]
pub fn may_repeat(set: u8, key: u8, kind: u8) -> bool
    ensures { result ≡ may_repeat set key kind }
{
    key != PAUSE
        && has_code(set, key)
        && (set != 3 || kind == TYPEMATIC || kind == TYPEMATIC_MAKE_BREAK)
}
