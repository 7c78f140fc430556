// What a key sends as things stand, and how it is queued (docs/RULES.md, sections 3 and 7).
#![tactic(auto)]

ghost use Rattle.std.specs.Prelude.{◌≡◌, true, not, ◌+◌, ◌*◌, ◌≤◌, ◌<◌, get_or};
ghost use Rattle.basics.specs.Choice.{both, either};
ghost use Rattle.codes.specs.declared.Action.TheVariants.{Press, Release};
ghost use Rattle.codes.specs.Codes.{has_code, pauses_at_once, sends_release};
ghost use Rattle.codes.specs.Sequences.{holding};
ghost use Rattle.queue.specs.Queues.{tidy};
ghost use Rattle.range.specs.Range.{good_mode};
ghost use Rattle.record.specs.Held.{flag_of, modifiers_of};
ghost use Rattle.sending.specs.Sending.{num_lock, sends_with, queued_of, shortest_release};

use codes::rows::has_code;
use codes::{Action, Sequence};
use keys::mark_of;
use queue::Queue;
use record::held::is_held;
use record::{Held, Mode};

// A key that is held counts 1.
fn flag(held: &Held, key: u8) -> u8
    requires { key < 144 }
    ensures { result ≡ flag_of (get_or held.now key 0) }
{
    if is_held(held, key) {
        return 1;
    }
    0
}

// Two keys as the two bits of a number.
fn pair(held: &Held, low: u8, high: u8) -> u8
    requires { (low < 144) × (high < 144) }
    ensures { result ≡ flag_of (get_or held.now low 0) + 2 * flag_of (get_or held.now high 0) }
{
    flag(held, low) + 2 * flag(held, high)
}

// The modifier keys among the held ones: SHIFT, CTRL and ALT, the left one the lower bit of each pair.
fn modifiers_of(held: &Held) -> u8
    ensures { result ≡ modifiers_of held.now }
{
    let shift = pair(held, keys::SHIFT_L, keys::SHIFT_R);
    let ctrl = pair(held, keys::CTRL_L, keys::CTRL_R);
    let alt = pair(held, keys::ALT_L, keys::ALT_R);
    shift + 4 * ctrl + 16 * alt
}

// Num Lock is an indicator.
fn num_lock(indicators: u8) -> bool
    ensures { result ≡ num_lock indicators }
{
    indicators / 2 % 2 == 1
}

// The bytes that an action of a key sends. A key of one form does not ask what else is held.
pub fn bytes_of(held: &Held, mode: Mode, kind: u8, key: u8, action: Action) -> Sequence
    ensures { result ≡ holding (sends_with held.now mode kind key action) }
{
    if !forms::has_forms(mode.set, key) {
        return codes::plain::plain_sequence(mode.set, key, action, kind);
    }
    sequences::sequence_of(
        mode.set,
        key,
        action,
        kind,
        modifiers_of(held),
        num_lock(mode.indicators),
    )
}

// A release that sends nothing: that of PAUSE, which sent all on its press, and in set 3 those of keys that have no code or whose type
// sends none. It is asked by branches, since the compiler would else work out all of it for every key.
fn is_silent(set: u8, key: u8, kind: u8) -> bool
    requires { record { low : 1 ≤ set; high : set ≤ 3 } }
    ensures { result ≡ either (pauses_at_once set key) (not (both (has_code set key) (sends_release set kind))) }
{
    if set == 3 {
        if keys::FIRST_MEDIA <= key {
            return true;
        }
        if (kind != keys::MAKE_BREAK) & (kind != keys::TYPEMATIC_MAKE_BREAK) {
            return true;
        }
    } else {
        if key == keys::PAUSE {
            return true;
        }
    }
    false
}

// The bytes that any other release has at least.
fn shortest_release(set: u8) -> usize
    ensures { result ≡ shortest_release set }
{
    if set == 1 { 1 } else { 2 }
}

// What a press sends is queued. A full queue takes nothing: there the mark is put without asking what is sent, unless it is nothing, since
// the key has no code. The flags, the queue and the mode are lent one by one, and not the dock: tried, and neither the clause nor the
// proof is shorter. Mode, type and key stand one by one, as `sends_with` takes them.
pub fn send_press(held: &Held, queue: &mut Queue, mode: Mode, kind: u8, key: u8)
    requires { tidy queue.old ≡ true }
    ensures { queue.new ≡ queued_of queue.old mode (sends_with held.now mode kind key Press) }
{
    if !queue.fits(1) {
        if !has_code(mode.set, key) {
            let _bytes = queue.bytes; // read, so that the proof knows how many places there are
            return;
        }
        queue.mark_last(mark_of(mode.set as u32));
        return;
    }
    let sequence = bytes_of(held, mode, kind, key, Action::Press);
    queue.push(sequence, mark_of(mode.set as u32));
}

// What a release sends, likewise: nothing changes if it is silent, and where the shortest has no room the mark is put.
pub fn send_release(held: &Held, queue: &mut Queue, mode: Mode, kind: u8, key: u8)
    requires { record { tidied : tidy queue.old ≡ true; mode : good_mode mode ≡ true } }
    ensures { queue.new ≡ queued_of queue.old mode (sends_with held.now mode kind key Release) }
{
    if is_silent(mode.set, key, kind) {
        let _bytes = queue.bytes; // as above
        return;
    }
    if !queue.fits(shortest_release(mode.set)) {
        queue.mark_last(mark_of(mode.set as u32));
        return;
    }
    let sequence = bytes_of(held, mode, kind, key, Action::Release);
    queue.push(sequence, mark_of(mode.set as u32));
}
