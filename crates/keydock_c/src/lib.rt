// What C calls of keydock (include/keydock.h), each function under its own name. Nothing is decided here.
#![tactic(auto)]

ghost use Rattle.std.specs.Prelude.{◌≡◌};
ghost use Rattle.frames.specs.Frames.{packed_of, unpacked_of};
ghost use Rattle.encoder.specs.Encoder.{encoded_of, output_of};
ghost use Rattle.reader.specs.Reader.{answer_of, press_of};
ghost use Rattle.keydock.specs.Numbers.{unpacked_number, encoded_number, answer_number, press_number};

// The frame of a byte.
#[unsafe(no_mangle)]
pub extern "C" fn keydock_pack_frame(byte: u8) -> u16
    ensures { result ≡ packed_of byte }
{
    keydock::keydock_pack_frame(byte)
}

// The byte of a frame; -256 for a broken one, -5 for a number over 2047.
#[unsafe(no_mangle)]
pub extern "C" fn keydock_unpack_frame(frame: u32) -> i32
    ensures { result ≡ unpacked_number (unpacked_of frame) }
{
    keydock::keydock_unpack_frame(frame)
}

// A key's bytes into the lent output: how many; -7 for a choice out of its range, else -6 for an output under 8 bytes.
#[unsafe(no_mangle)]
pub extern "C" fn keydock_key_codes(
    set: u32,
    key: u32,
    event: u32,
    kind: u32,
    modifiers: u32,
    lock: u32,
    out: &mut [u8],
) -> i32
    ensures answer { result ≡ encoded_number (encoded_of set key event kind modifiers lock out.old) }
    ensures output { out.new ≡ output_of set key event kind modifiers lock out.old }
{
    keydock::keydock_key_codes(set, key, event, kind, modifiers, lock, out)
}

// One key byte read: event + 256 * key + 65536 * next state; -9 for a state over 14, else -7 for a set that is not 1 to 3.
#[unsafe(no_mangle)]
pub extern "C" fn keydock_read_byte(set: u32, state: u32, byte: u8) -> i32
    ensures { result ≡ answer_number (answer_of set state byte) }
{
    keydock::keydock_read_byte(set, state, byte)
}

// The same for presses alone: 256 * key + 65536 * next state, or the same refusals.
#[unsafe(no_mangle)]
pub extern "C" fn keydock_read_press(set: u32, state: u32, byte: u8) -> i32
    ensures { result ≡ press_number (press_of (answer_of set state byte)) }
{
    keydock::keydock_read_press(set, state, byte)
}
