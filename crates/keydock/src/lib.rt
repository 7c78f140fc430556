// The C interface without a dock (include/keydock.h): frames, a key's codes and the reader on numbers and bytes alone.
// Nothing is decided here. Each function asks the part that knows and turns its answer into one number, in which 0 is
// none, as include/keydock.h has it. What a function is asked stands one by one, as C passes it. C calls them by way of keydock_c.
#![tactic(auto)]

ghost use Rattle.std.specs.Prelude.{◌≡◌};
ghost use Rattle.frames.specs.Frames.{packed_of, unpacked_of};
ghost use Rattle.encoder.specs.Encoder.{encoded_of, output_of};
ghost use Rattle.reader.specs.Reader.{answer_of, error_says, press_of};
ghost use Rattle.basics.specs.Said.{minus};
ghost use Rattle.keydock.specs.Numbers.{unpacked_number, encoded_number, event_number, key_of, answer_number, press_number};

use encoder::EncodeError;
use frames::FrameError;
use reader::{Event, ReadError};

// The frame of a byte.
pub fn keydock_pack_frame(byte: u8) -> u16
    ensures { result ≡ packed_of byte }
{
    frames::pack(byte)
}

// The byte of a frame; -256 for a broken one, -5 for a number over 2047.
#[tactic(auto, using(std::proofs::lemmas::Int::ints))]
pub fn keydock_unpack_frame(frame: u32) -> i32
    ensures { result ≡ unpacked_number (unpacked_of frame) }
{
    match frames::unpack(frame) {
        Ok(byte) => i32::from(byte),
        Err(FrameError::Broken) => -256,
        Err(FrameError::TooLarge) => -5,
    }
}

// A key's bytes into the lent output: how many; -7 for a choice out of its range, else -6 for an output under 8 bytes.
#[tactic(auto, using(crate::proofs::Numbers::count_small, std::proofs::lemmas::Int::ints))]
pub fn keydock_key_codes(
    set: u32,
    key: u32,
    event: u32,
    kind: u32,
    modifiers: u32,
    lock: u32,
    out: &mut [u8],
) -> i32
    ensures answer { result ≡ encoded_number (encoded_of set key event kind modifiers lock out.old) }
    ensures output { out.new ≡ output_of set key event kind modifiers lock out.old }
{
    match encoder::encode(set, key, event, kind, modifiers, lock, out) {
        Ok(count) => count as i32,
        Err(EncodeError::BadChoice) => -7,
        Err(EncodeError::ShortOutput) => -6,
    }
}

// The number of an event, written out: what has a value in it is no number by `as`.
fn event_number(event: Event) -> u32
    ensures { result ≡ event_number event }
{
    match event {
        Event::More => 0,
        Event::Pressed(_) => 1,
        Event::Released(_) => 2,
        Event::PauseStruck => 3,
        Event::Wrapping => 4,
        Event::Overrun => 5,
        Event::Unknown => 6,
    }
}

// The key of an event, 0 for none.
fn key_of(event: Event) -> u8
    ensures { result ≡ key_of event }
{
    match event {
        Event::Pressed(key) | Event::Released(key) => key,
        _ => 0,
    }
}

// A refusal of the reader's.
fn refusal(error: ReadError) -> i32
    ensures { result ≡ minus (error_says error).number }
{
    -i32::from(error.number())
}

// One key byte read: event + 256 * key + 65536 * next state; -9 for a state over 14, else -7 for a set that is not 1 to 3.
#[tactic(auto, using(crate::proofs::Numbers::next_small, std::proofs::lemmas::Int::ints), unfolding(crate::specs::Numbers::answer_number))]
pub fn keydock_read_byte(set: u32, state: u32, byte: u8) -> i32
    ensures { result ≡ answer_number (answer_of set state byte) }
{
    match reader::read(set, state, byte) {
        Ok(answer) => {
            let key = u32::from(key_of(answer.event));
            (event_number(answer.event) + 256 * key + 65536 * answer.state) as i32
        }
        Err(error) => refusal(error),
    }
}

// The same for presses alone: 256 * key + 65536 * next state, or the same refusals.
#[tactic(auto, using(crate::proofs::Numbers::next_small, std::proofs::lemmas::Int::ints), unfolding(crate::specs::Numbers::press_number))]
pub fn keydock_read_press(set: u32, state: u32, byte: u8) -> i32
    ensures { result ≡ press_number (press_of (answer_of set state byte)) }
{
    match reader::read_press(set, state, byte) {
        Ok(press) => {
            let key = u32::from(press.key.unwrap_or(0));
            (256 * key + 65536 * press.state) as i32
        }
        Err(error) => refusal(error),
    }
}
