// The replies that wait (docs/RULES.md, section 11): three at most, because nothing is answered with more.
#![tactic(auto)]

ghost use Rattle.std.specs.Prelude.{◌≡◌, true, ◌≤◌, drop, slice_get, IfNone};
ghost use Rattle.replies.specs.Replies.{waiting_replies, replies_of, tidy_replies};

use queue::arrays::{is_tidy_array, moved_up};

// The first `length` of `bytes` wait, the oldest in front, and zeros stand behind them. A type of its own beside Queue: the record has its
// length as a byte, and the promises (`replies_of`, `queue_of`) name both.
#[derive(Clone, Copy)]
pub struct Replies {
    pub bytes: [u8; 3],
    pub length: u8,
}

impl Replies {
    // These bytes wait, the oldest in front.
    pub fn of<const COUNT: usize>(bytes: [u8; COUNT]) -> Self
        requires { COUNT ≤ 3 }
        ensures { result ≡ replies_of bytes.entry }
    {
        let mut places = [0; 3];
        places[..COUNT].copy_from_slice(&bytes);
        Replies {
            bytes: places,
            length: COUNT as u8,
        }
    }

    // At most three wait, and zeros stand behind them.
    #[tactic(auto, unfolding(crate::specs::Replies::tidy_replies))]
    pub fn is_tidy(&self) -> bool
        ensures { result ≡ tidy_replies self.now }
    {
        is_tidy_array(&self.bytes, self.length as usize)
    }

    // The oldest is taken off, and those behind it move up.
    pub fn pop(&mut self) -> Option<u8>
        requires { tidy_replies self.old ≡ true }
        ensures oldest { result ≡ slice_get (waiting_replies self.old) 0 }
        ensures nothing { IfNone result ((self.old.length ≡ 0) × (self.new ≡ self.old)) }
        ensures others { self.new ≡ replies_of (drop 1 (waiting_replies self.old)) }
    {
        if self.length == 0 {
            return None;
        }
        let oldest = self.bytes[0];
        self.bytes = moved_up(&self.bytes);
        self.length -= 1;
        Some(oldest)
    }
}
