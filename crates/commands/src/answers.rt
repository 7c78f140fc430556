// The bytes that answer a command.
ghost use Rattle.std.specs.Prelude.{◌≡◌};
ghost use Rattle.replies.specs.Replies.{replies_of};
ghost use Rattle.commands.specs.Commands.{reply_to};

use hostbytes::{ACKNOWLEDGED, AWAKE, ECHO, IDENTIFY, IDENTITY, IDENTITY_END, RESEND, RESET};
use replies::Replies;

// What a command is answered with.
#[tactic(auto, unfolding(crate::specs::Commands::reply_to))]
pub fn reply_to(byte: u8) -> Replies
    ensures { result ≡ replies_of (reply_to byte) }
{
    match byte {
        ECHO => Replies::of([ECHO]),
        0xef | 0xf1 => Replies::of([RESEND]),
        IDENTIFY => Replies::of([ACKNOWLEDGED, IDENTITY, IDENTITY_END]),
        RESET => Replies::of([ACKNOWLEDGED, AWAKE]),
        _ => Replies::of([ACKNOWLEDGED]),
    }
}
