// The record at power-on.
ghost use Rattle.std.specs.Prelude.{◌≡◌};
ghost use Rattle.record.specs.Power.{default_types, fresh_rest, power_on};

use crate::{Dock, Mode, Outgoing, Rest, Types};
use queue::Queue;
use replies::Replies;

// The default rate: 120 scans, then every 22 (docs/RULES.md, section 6).
pub const DEFAULT_RATE: u8 = 0x2b;

// The positions of the plain panel that have a key.
const PLAIN_KEYS: usize = 104;

// The types that the key table has, by key number. Sixteen to a line: key 0x1d is line 1, column d.
const DEFAULTS: Types = *b"\x00\x00\x00\x00\x00\x00\x00\x00\x00\x00\x00\x00\x00\x00\x00\x00\
    \x00\x00\x00\x00\x00\x00\x00\x00\x00\x00\x00\x00\x00\x01\x00\x00\
    \x00\x00\x00\x00\x00\x00\x00\x00\x00\x00\x01\x00\x00\x00\x00\x00\
    \x00\x00\x00\x00\x00\x01\x01\x01\x00\x02\x02\x02\x00\x02\x02\x02\
    \x02\x00\x00\x00\x00\x02\x02\x02\x02\x00\x02\x02\x02\x02\x02\x02\
    \x02\x02\x02\x02\x02\x02\x02\x02\x02\x02\x02\x02\x02\x02\x02\x02\
    \x02\x02\x02\x02\x02\x02\x01\x01\x01\x00\x00\x00\x00\x00\x00\x00\
    \x00\x00\x00\x00\x00\x00\x00\x00\x00\x00\x00\x00\x00\x00";

// The set 3 types that keys have until the host gives them others.
pub fn default_types() -> Types
    ensures { result ≡ default_types }
{
    DEFAULTS
}

// All but the arrays of a dock that has just woken up, with these replies waiting.
pub fn fresh_rest(replies: Replies) -> Rest
    ensures { result ≡ fresh_rest replies }
{
    Rest {
        outgoing: Outgoing {
            queue: Queue::empty(),
            repeating: 0,
            countdown: 0,
        },
        mode: Mode {
            set: 2,
            rate: DEFAULT_RATE,
            indicators: 0,
        },
        replies,
        scanning: true,
        waiting: 0,
        handover: false,
        given: hostbytes::RESEND,
    }
}

// Power-on: nothing seen or held, and AA waits as a reply. The map begins with no key, and is filled as the plain panel has them:
// key p + 1 at position p.
pub fn power_on() -> Dock
    ensures { result ≡ power_on }
{
    let mut map = [0; 144];
    // By index: what is written through `iter_mut` of a part of an array is not known to the proof afterwards.
    for position in 0..PLAIN_KEYS {
        map[position] = (position + 1) as u8;
    }
    // Put together at the end: a record that is made first and changed then lies twice on the stack.
    Dock {
        map,
        closed: [0; 18],
        counts: [0; 144],
        held: [0; 144],
        types: default_types(),
        rest: fresh_rest(Replies::of([hostbytes::AWAKE])),
    }
}
