// The encoder as the outside asks it (docs/RULES.md, sections 3 and 9): with numbers, and with an output that is lent.
#![tactic(auto)]

ghost use Rattle.std.specs.Prelude.{◌≡◌};
ghost use Rattle.encoder.specs.Encoder.{action_of, allowed, Encodes};

use codes::Action;
use sequences::sequence_of;

// What the encoder refuses.
#[derive(Clone, Copy, PartialEq, Eq, Debug)]
pub enum EncodeError {
    // A set, key, event, type, modifiers or Num Lock out of its range.
    BadChoice,
    // A lent output under 8 bytes.
    ShortOutput,
}

// Keys are numbered from 1 to this.
const LAST_KEY: u32 = keys::LAST_KEY as u32;

// What the encoder may be asked for. The numbers stay six words, as the promise of `keydock_key_codes` has them.
#[tactic(auto, unfolding(crate::specs::Encoder::allowed))]
fn is_allowed(set: u32, key: u32, event: u32, kind: u32, modifiers: u32, lock: u32) -> bool
    ensures { result ≡ allowed set key event kind modifiers lock }
{
    (1..=3).contains(&set)
        && (1..=LAST_KEY).contains(&key)
        && event <= 2
        && kind <= 3
        && modifiers <= 63
        && lock <= 1
}

// The action that an event's number asks for. No TryFrom: what is over 2 is refused with the other numbers, so this cannot fail.
fn action_of(event: u32) -> Action
    ensures { result ≡ action_of event }
{
    match event {
        0 => Action::Press,
        1 => Action::Release,
        _ => Action::Repeat,
    }
}

// The bytes of a key, written to the front of the output, and how many they are: set 1 to 3, key 1 to 125, event 0 press, 1 release,
// 2 repeat, type 0 to 3, modifiers 0 to 63, Num Lock 0 or 1.
#[tactic(auto, using(codes::proofs::Adding::holding_bytes), unfolding(crate::specs::Encoder::allowed, crate::specs::Encoder::asked, crate::specs::Encoder::encoded_of, crate::specs::Encoder::encoded_said, crate::specs::Encoder::output_of))]
pub fn encode(
    set: u32,
    key: u32,
    event: u32,
    kind: u32,
    modifiers: u32,
    lock: u32,
    out: &mut [u8],
) -> Result<usize, EncodeError>
    ensures { Encodes set key event kind modifiers lock out.old result out.new }
{
    if !is_allowed(set, key, event, kind, modifiers, lock) {
        return Err(EncodeError::BadChoice);
    }
    if out.len() < 8 {
        return Err(EncodeError::ShortOutput);
    }
    let sequence = sequence_of(
        set as u8,
        key as u8,
        action_of(event),
        kind as u8,
        modifiers as u8,
        lock == 1,
    );
    let bytes = sequence.as_slice();
    out[..bytes.len()].copy_from_slice(bytes);
    Ok(bytes.len())
}
