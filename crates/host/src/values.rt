// The values that commands wait for.
ghost use Rattle.std.specs.Prelude.{◌≡◌};
ghost use Rattle.basics.specs.Said.{Answers};
ghost use Rattle.host.specs.Values.{asked_of, asked_says, asked_said, took_value};

use crate::reply;
use hostbytes::{
    ACKNOWLEDGED, CHOOSE_SET, INDICATORS, KEY_TYPE, LAST_KEY_TYPE, RATE, RESEND, WHICH_SET,
};
use lookup::{Set, Set3};
use record::Dock;
use replies::Replies;

// What a right value asks of the command that waits for it.
#[derive(Clone, Copy)]
pub enum Asked {
    // The indicators.
    Indicators(u8),
    // A set,
    Set(u8),
    // and which one is in use.
    WhichSet,
    // A rate.
    Rate(u8),
    // A key, and its type.
    KeyType(u8, u8),
}

// The check of a value: none is right that the command does not know, nor any while no command waits. No other function looks at it.
#[tactic(auto, unfolding(crate::specs::Values::asked_of, crate::specs::Values::asked_said))]
fn asked_of(command: u8, value: u8) -> Option<Asked>
    ensures { Answers asked_says result (asked_of command value) (asked_said command value) }
{
    match (command, value) {
        (INDICATORS, 0..=7) => Some(Asked::Indicators(value)),
        (CHOOSE_SET, WHICH_SET) => Some(Asked::WhichSet),
        (CHOOSE_SET, 1..=3) => Some(Asked::Set(value)),
        (RATE, 0..=127) => Some(Asked::Rate(value)),
        (KEY_TYPE..=LAST_KEY_TYPE, _) => {
            let key = Set3::key(value)?;
            Some(Asked::KeyType(key, command - KEY_TYPE))
        }
        _ => None,
    }
}

// A byte below ED: a value for the command that waits, if one does. A right one ends the wait, and FA alone answers it, but for a question.
#[tactic(auto, using(crate::proofs::Rows::key_asked), unfolding(crate::specs::Values::valued))]
pub fn take_value(dock: &mut Dock, byte: u8)
    ensures { dock.new ≡ took_value byte dock.old }
{
    let Some(asked) = asked_of(dock.rest.waiting, byte) else {
        return reply(dock, RESEND);
    };
    dock.rest.waiting = 0;
    reply(dock, ACKNOWLEDGED);
    match asked {
        Asked::Indicators(indicators) => dock.rest.mode.indicators = indicators,
        Asked::Set(set) => dock.rest.mode.set = set,
        Asked::WhichSet => dock.rest.replies = Replies::of([ACKNOWLEDGED, dock.rest.mode.set]),
        Asked::Rate(rate) => dock.rest.mode.rate = rate,
        Asked::KeyType(key, kind) => dock.types[key as usize] = kind,
    }
}
