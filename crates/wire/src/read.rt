// The next byte for the host.
ghost use Rattle.std.specs.Prelude.{◌≡◌, true, Ok};
ghost use Rattle.range.specs.Range.{good_rest};
ghost use Rattle.dock.specs.Answers.{taken};
ghost use Rattle.dock.specs.Closing.{closing};
ghost use Rattle.dock.specs.Read.{remembering, read};

use dock::Given;
use dock::closing::close_in_place;
use record::Dock;

// A byte is given, and the call ends. What is sent again on FE is the last byte given that was not FE itself.
#[tactic(auto, unfolding(dock::specs::Read::remembering, range::specs::Range::good_rest))]
fn give(dock: &mut Dock, byte: u8)
    requires { good_rest dock.old.rest ≡ true }
    ensures { dock.new ≡ closing (remembering dock.old byte) }
{
    if byte != hostbytes::RESEND {
        dock.rest.given = byte;
    }
    close_in_place(dock);
}

// The read call in place, of a record in its range, whatever the map and the contacts are.
#[tactic(auto, unfolding(dock::specs::Read::read, dock::specs::Read::reply_taken, dock::specs::Read::key_byte_taken))]
pub fn read_in_place(dock: &mut Dock) -> Option<Given>
    requires { good_rest dock.old.rest ≡ true }
    ensures { taken (Ok result) dock.new ≡ read dock.old }
{
    if let Some(byte) = dock.rest.replies.pop() {
        give(dock, byte);
        return Some(Given::Reply(byte));
    }
    if let Some(byte) = dock.rest.outgoing.queue.pop() {
        give(dock, byte);
        return Some(Given::KeyByte(byte));
    }
    close_in_place(dock);
    None
}
