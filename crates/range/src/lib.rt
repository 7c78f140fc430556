// Is every part of a record in its range (docs/RECORD.md). The tests are joined by `&` and `|`, so that the
// compiler makes no branch of each.
#![tactic(auto)]

ghost use Rattle.std.specs.Prelude.{◌≡◌};
ghost use Rattle.range.specs.Range.{good_mode, good_outgoing, good_rest, takes_value, in_range};

pub use basics::all_up_to; // passed on: docs/PROMISES.md has it by this name
use hostbytes::{CHOOSE_SET, INDICATORS, KEY_TYPE, LAST_KEY_TYPE, RATE};
use record::{Dock, Mode, Outgoing, Rest};

// A set, a rate and indicators that the host can choose.
#[tactic(auto, unfolding(crate::specs::Range::good_mode))]
fn is_good_mode(mode: &Mode) -> bool
    ensures { result ≡ good_mode mode.now }
{
    (1 <= mode.set) & (mode.set <= 3) & (mode.rate <= 127) & (mode.indicators <= 7)
}

// A queue, a key or none, and a countdown that no interval outlasts.
#[tactic(auto, unfolding(crate::specs::Range::good_outgoing))]
fn is_good_outgoing(outgoing: &Outgoing) -> bool
    ensures { result ≡ good_outgoing outgoing.now }
{
    outgoing.queue.is_tidy() & (outgoing.repeating <= keys::LAST_KEY) & (outgoing.countdown <= 240)
}

// A command that takes a value.
pub fn takes_value(byte: u8) -> bool
    ensures { result ≡ takes_value byte }
{
    (byte == INDICATORS)
        | (byte == CHOOSE_SET)
        | (byte == RATE)
        | ((KEY_TYPE <= byte) & (byte <= LAST_KEY_TYPE))
}

// All but the arrays is in its range.
#[tactic(auto, unfolding(crate::specs::Range::good_rest))]
pub fn is_good_rest(rest: &Rest) -> bool
    ensures { result ≡ good_rest rest.now }
{
    is_good_outgoing(&rest.outgoing)
        & is_good_mode(&rest.mode)
        & rest.replies.is_tidy()
        & ((rest.waiting == 0) | takes_value(rest.waiting))
}

// Every part is in its range: of the arrays only the map has one.
#[tactic(auto, unfolding(crate::specs::Range::in_range))]
pub fn in_range(dock: &Dock) -> bool
    ensures { result ≡ in_range dock.now }
{
    all_up_to(keys::LAST_KEY, &dock.map) & is_good_rest(&dock.rest)
}
