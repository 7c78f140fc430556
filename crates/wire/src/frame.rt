// A frame from the host.
ghost use Rattle.std.specs.Prelude.{◌≡◌, true};
ghost use Rattle.frames.specs.Frames.{unpacked_of};
ghost use Rattle.range.specs.Range.{good_rest};
ghost use Rattle.dock.specs.Answers.{answered};
ghost use Rattle.dock.specs.Frame.{took_frame};

use dock::Refusal;
use dock::closing::close_in_place;
use frames::{FrameError, unpack};
use host::{reply, take};
use record::Dock;

// The frame call in place, of a record in its range, whatever the map is.
#[tactic(auto, unfolding(dock::specs::Frame::took_frame))]
pub fn frame_in_place(dock: &mut Dock, number: u32) -> Result<(), Refusal>
    requires { good_rest dock.old.rest ≡ true }
    ensures { answered result dock.new ≡ took_frame (unpacked_of number) dock.old }
{
    match unpack(number) {
        Ok(byte) => take(dock, byte),
        Err(FrameError::Broken) => reply(dock, hostbytes::RESEND),
        Err(FrameError::TooLarge) => return Err(Refusal::FrameNumber),
    }
    close_in_place(dock);
    Ok(())
}
