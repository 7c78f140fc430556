// The keys of a panel that was taken away are released, the lowest first, each as soon as its release fits (docs/RULES.md, section 8).
// `Ready` is asked for and no invariant of the record, because `calls` takes any record at all.
#![tactic(auto)]

ghost use Rattle.std.specs.Prelude.{◌≡◌, true, ◌<◌};
ghost use Rattle.queue.specs.Queues.{tidy, contents};
ghost use Rattle.record.specs.Views.{keys_of};
ghost use Rattle.record.specs.Parts.{with_keys};
ghost use Rattle.keying.specs.Changes.{released_with};
ghost use Rattle.keying.specs.Handover.{handed_over, with_handed};
ghost use Rattle.keying.specs.Ready.{Ready};

use codes::{Action, Sequence};
use keying::let_go;
use keys::mark_of;
use record::Dock;
use record::held::is_held;
use sending::bytes_of;

// A key is released, and these bytes say so.
fn release_with(dock: &mut Dock, key: u8, sequence: Sequence)
    requires { record { tidied : tidy dock.old.rest.outgoing.queue ≡ true; number : key < 144 } }
    ensures { dock.new
        ≡ with_keys dock.old (released_with (keys_of dock.old) dock.old.rest.mode key (contents sequence)) }
{
    let mark = mark_of(dock.rest.mode.set as u32);
    dock.rest.outgoing.queue.push(sequence, mark);
    let_go(dock, key);
}

// A handover goes on as far as the queue has room, and is open as long as it has not come to its end. By number and not over the flags:
// places 0 and 126 to 143 are no key's.
pub fn hand_over(dock: &mut Dock)
    requires { Ready dock.old }
    ensures { dock.new
        ≡ with_handed dock.old (handed_over (keys_of dock.old) dock.old.rest.mode dock.old.types) }
{
    for key in 1..=keys::LAST_KEY {
        if is_held(&dock.held, key) {
            let kind = dock.types[key as usize];
            let sequence = bytes_of(&dock.held, dock.rest.mode, kind, key, Action::Release);
            if !dock.rest.outgoing.queue.fits(sequence.length) {
                dock.rest.handover = true;
                return;
            }
            release_with(dock, key, sequence);
        }
    }
    dock.rest.handover = false;
}
