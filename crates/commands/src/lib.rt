// What each command does, and what it is answered with (docs/RULES.md, section 11). Commands are bytes with names: an enum of them would be
// the list in `obey` once more.
#![tactic(auto)]

mod answers; // answers.rt: the bytes that answer a command

ghost use Rattle.std.specs.Prelude.{◌≡◌};
ghost use Rattle.commands.specs.Commands.{cleared, quietened, readied, enabled, defaulted, disabled, typed, restarted, obeyed, commanded};

use crate::answers::reply_to;
use hostbytes::{
    ALL_TYPES, CHOOSE_SET, DEFAULTS, DISABLE, ENABLE, KEY_TYPE, LAST_ALL_TYPES, LAST_KEY_TYPE,
    RESET,
};
use record::Dock;
use record::power::DEFAULT_RATE;

// No key byte waits.
fn clear(dock: &mut Dock)
    ensures { dock.new ≡ cleared dock.old }
{
    dock.rest.outgoing.queue = queue::Queue::empty();
}

// No key byte waits, and no key repeats.
fn quieten(dock: &mut Dock)
    ensures { dock.new ≡ quietened dock.old }
{
    clear(dock);
    dock.rest.outgoing.repeating = 0;
    dock.rest.outgoing.countdown = 0;
}

// F0, until the set is given: nothing queued, nothing repeating, default rate.
fn ready_for_set(dock: &mut Dock)
    ensures { dock.new ≡ readied dock.old }
{
    quieten(dock);
    dock.rest.mode.rate = DEFAULT_RATE;
}

// F4: nothing queued, nothing repeating, scanning on.
fn enable(dock: &mut Dock)
    ensures { dock.new ≡ enabled dock.old }
{
    quieten(dock);
    dock.rest.scanning = true;
}

// F6: nothing queued, nothing repeating, set 2, default rate and types.
fn set_default(dock: &mut Dock)
    ensures { dock.new ≡ defaulted dock.old }
{
    quieten(dock);
    dock.rest.mode.set = 2;
    dock.rest.mode.rate = DEFAULT_RATE;
    dock.types = record::power::default_types();
}

// F5: the same, and scanning off.
fn disable(dock: &mut Dock)
    ensures { dock.new ≡ disabled dock.old }
{
    set_default(dock);
    dock.rest.scanning = false;
}

// F7 to FA: nothing queued, and every key of one type.
fn set_all_types(dock: &mut Dock, kind: u8)
    ensures { dock.new ≡ typed kind dock.old }
{
    clear(dock);
    dock.types = [kind; keys::PLACES];
}

// FF: as at power-on, but for the map. The replies are replaced when the command is answered.
#[tactic(auto, unfolding(record::specs::Power::fresh_with))]
fn reset(dock: &mut Dock)
    ensures { dock.new ≡ restarted dock.old }
{
    dock.closed = [0; 18];
    dock.counts = [0; 144];
    dock.held = [0; 144];
    dock.types = record::power::default_types();
    dock.rest = record::power::fresh_rest(dock.rest.replies);
}

// What a command does at once. FB to FD clear, and give the type with their value.
#[tactic(auto, unfolding(crate::specs::Commands::obeyed))]
fn obey(dock: &mut Dock, byte: u8)
    ensures { dock.new ≡ obeyed byte dock.old }
{
    match byte {
        CHOOSE_SET => ready_for_set(dock),
        ENABLE => enable(dock),
        DISABLE => disable(dock),
        DEFAULTS => set_default(dock),
        ALL_TYPES..=LAST_ALL_TYPES => set_all_types(dock, byte - ALL_TYPES),
        KEY_TYPE..=LAST_KEY_TYPE => clear(dock),
        RESET => reset(dock),
        _ => {}
    }
}

// A command: it is obeyed and answered, and waits if it takes a value.
#[tactic(auto, unfolding(crate::specs::Commands::commanded))]
pub fn command(dock: &mut Dock, byte: u8)
    ensures { dock.new ≡ commanded byte dock.old }
{
    obey(dock, byte);
    dock.rest.replies = reply_to(byte);
    dock.rest.waiting = if range::takes_value(byte) { byte } else { 0 };
}
