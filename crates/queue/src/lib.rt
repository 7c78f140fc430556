// Bytes that wait to be read (docs/RULES.md, section 7): first in, first out, 16 at most.
#![tactic(auto)]

ghost use Rattle.std.specs.Prelude.{◌≡◌, true, [], ◌≤◌, drop, slice_get, IfNone};
ghost use Rattle.queue.specs.Queues.{waiting, queue_of, tidy, contents, room_for, has_room, last_replaced, pushed_to};

use crate::arrays::{is_tidy_array, moved_up};
use codes::Sequence;

pub mod arrays; // arrays.rt: bytes at the front of an array, of any size

// The first `length` of `bytes` wait, the oldest in front; zeros stand behind them. An array and a length, since there is no heap. That
// it is tidy is asked for and no invariant: a record that is lent may have any bytes here, and `is_tidy` looks at them.
#[derive(Clone, Copy)]
pub struct Queue {
    pub bytes: [u8; 16],
    pub length: usize,
}

impl Queue {
    // Nothing waits.
    #[tactic(auto, unfolding(crate::specs::Queues::queue_of))]
    pub fn empty() -> Self
        ensures { result ≡ queue_of [] }
    {
        Queue {
            bytes: [0; 16],
            length: 0,
        }
    }

    // At most 16 bytes wait, and zeros stand behind them.
    #[tactic(auto, unfolding(crate::specs::Queues::tidy))]
    pub fn is_tidy(&self) -> bool
        ensures { result ≡ tidy self.now }
    {
        is_tidy_array(&self.bytes, self.length)
    }

    // So many bytes more fit: as the length counts those that wait, and so as they are.
    pub fn fits(&self, more: usize) -> bool
        requires { self.now.length ≤ 16 }
        ensures counted { result ≡ room_for self.now.length more }
        ensures waits { result ≡ has_room (waiting self.now) more }
    {
        more <= 16 - self.length
    }

    // The last of the bytes that wait, one at least, is replaced by the mark.
    pub fn mark_last(&mut self, mark: u8)
        requires { record { tidied : tidy self.old ≡ true; some : 1 ≤ self.old.length } }
        ensures { self.new ≡ queue_of (last_replaced mark (waiting self.old)) }
    {
        self.bytes[self.length - 1] = mark;
    }

    // A sequence goes behind the bytes that wait, or the last of them is replaced by the mark.
    pub fn push(&mut self, sequence: Sequence, mark: u8)
        requires { tidy self.old ≡ true }
        ensures { self.new ≡ queue_of (pushed_to mark (waiting self.old) (contents sequence)) }
    {
        if !self.fits(sequence.length) {
            self.mark_last(mark);
            return;
        }
        let end = self.length + sequence.length;
        self.bytes[self.length..end].copy_from_slice(&sequence.bytes[..sequence.length]);
        self.length = end;
    }

    // The oldest byte is taken off, and those behind it move up.
    pub fn pop(&mut self) -> Option<u8>
        requires { tidy self.old ≡ true }
        ensures oldest { result ≡ slice_get (waiting self.old) 0 }
        ensures nothing { IfNone result ((self.old.length ≡ 0) × (self.new ≡ self.old)) }
        ensures others { self.new ≡ queue_of (drop 1 (waiting self.old)) }
    {
        if self.length == 0 {
            return None;
        }
        let oldest = self.bytes[0];
        self.bytes = moved_up(&self.bytes);
        self.length -= 1;
        Some(oldest)
    }
}
