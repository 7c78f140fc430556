// Keys as the terminal is told of them (docs/RULES.md, sections 5, 6 and 8): pressed, released, repeated and handed over.
#![tactic(auto)]

ghost use Rattle.std.specs.Prelude.{◌<◌, ◌≡◌};
ghost use Rattle.record.specs.Views.{keys_of};
ghost use Rattle.record.specs.Parts.{with_keys};
ghost use Rattle.keying.specs.Changes.{let_go};

use record::Dock;
use record::held::set_held;

pub mod repeating; // repeating.rt: the key that repeats

// A key is let go: it is not held any more, and if it was the one that repeats, none does. The bytes that wait may be any.
pub fn let_go(dock: &mut Dock, key: u8)
    requires { key < 144 }
    ensures { dock.new
        ≡ with_keys dock.old (let_go (keys_of dock.old) key dock.old.rest.outgoing.queue) }
{
    set_held(&mut dock.held, key, false);
    if dock.rest.outgoing.repeating == key {
        dock.rest.outgoing.repeating = 0;
        dock.rest.outgoing.countdown = 0;
    }
}
