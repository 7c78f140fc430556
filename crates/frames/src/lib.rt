// Frames (docs/RULES.md, section 2): the eleven bits in which a byte goes over the wire, as a number.
#![tactic(auto)]

ghost use Rattle.std.specs.Prelude.{◌≡◌};
ghost use Rattle.basics.specs.Said.{Answers};
ghost use Rattle.frames.specs.Frames.{parity, packed_of, unpacked_of, unpacked_says, unpacked_said};

// Why a number gives no byte.
#[derive(Clone, Copy, PartialEq, Eq)]
pub enum FrameError {
    // A wrong start, parity or stop bit.
    Broken,
    // No frame at all: a number over 2047 is refused.
    TooLarge,
}

// The bit that makes the number of ones of the byte and itself odd. Ones are not counted, by the library's method, since a small core has
// no instruction for that: the byte is folded onto itself, and each time two ones that meet cancel out, until one bit is left.
fn parity_of(byte: u8) -> u16
    ensures { result ≡ parity byte }
{
    let half = byte ^ (byte >> 4);
    let quarter = half ^ (half >> 2);
    let eighth = quarter ^ (quarter >> 1);
    ((eighth & 1) as u16) ^ 1
}

// The frame of a byte.
pub fn pack(byte: u8) -> u16
    ensures { result ≡ packed_of byte }
{
    ((byte as u16) << 1) | (parity_of(byte) << 9) | (1 << 10)
}

// The byte of a frame, if the number is a frame and the frame is whole: then it is the frame of its byte.
pub fn unpack(frame: u32) -> Result<u8, FrameError>
    ensures { Answers unpacked_says result (unpacked_of frame) (unpacked_said frame) }
{
    if 2047 < frame {
        return Err(FrameError::TooLarge);
    }
    let byte = ((frame >> 1) & 255) as u8;
    if pack(byte) as u32 != frame {
        return Err(FrameError::Broken);
    }
    Ok(byte)
}
