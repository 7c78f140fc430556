// What the host's bytes do (docs/RULES.md, section 11).
#![tactic(auto)]

ghost use Rattle.std.specs.Prelude.{◌≡◌, [], ◌∷◌};
ghost use Rattle.commands.specs.Commands.{replying};
ghost use Rattle.host.specs.Values.{took_byte};

use record::Dock;
use replies::Replies;

mod values; // values.rt: the values that commands wait for

// One reply instead of those before.
pub fn reply(dock: &mut Dock, byte: u8)
    ensures { dock.new ≡ replying (byte ∷ []) dock.old }
{
    dock.rest.replies = Replies::of([byte]);
}

// A byte from the host: FE has the last byte sent again, ED to FF are commands, and a byte below them is a value.
#[tactic(auto, unfolding(crate::specs::Values::took_byte))]
pub fn take(dock: &mut Dock, byte: u8)
    ensures { dock.new ≡ took_byte byte dock.old }
{
    match byte {
        hostbytes::RESEND => reply(dock, dock.rest.given),
        hostbytes::FIRST_COMMAND.. => commands::command(dock, byte),
        _ => values::take_value(dock, byte),
    }
}
