// The flags of the held keys, by key number. Nothing else reads or sets one. Functions and no methods: `Held` is an array, as the record is
// laid out. A key is a byte below 144 and no type of its own: keys come out of the map, the types and loops as bytes, and every
// definition takes the number.
ghost use Rattle.std.specs.Prelude.{◌≡◌, ◌<◌};
ghost use Rattle.basics.specs.Choice.{pick};
ghost use Rattle.record.specs.Held.{held_at, key_down, key_up};

use crate::Held;

// A key is held.
pub fn is_held(held: &Held, key: u8) -> bool
    requires { key < 144 }
    ensures { result ≡ held_at held.now key }
{
    held[key as usize] != 0
}

// From now on a key is held, or it is not.
pub fn set_held(held: &mut Held, key: u8, holds: bool)
    requires { key < 144 }
    ensures { held.new ≡ pick holds (key_down held.old key) (key_up held.old key) }
{
    held[key as usize] = u8::from(holds);
}
