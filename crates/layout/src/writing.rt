// Parts of the record put into lent bytes. The parts that a call can change lie together at the end, so each function writes one part more
// than the one before it and leaves what stands in front. They are inlined, since the compiler then sees that record and bytes lie apart:
// else it asks the C library for memmove.
ghost use Rattle.std.specs.Prelude.{◌≡◌, ◌++◌, ◌≤◌, length, take};
ghost use Rattle.layout.specs.Layout.{types_at, closed_at, held_at, queue_at, size, small_of, rest_bytes, bytes_of};

use crate::{CLOSED, COUNTS, HELD, QUEUE, QUEUED, SIZE, TYPES};
use record::{Dock, Rest};

// The fourteen bytes behind those of the queue.
fn small_of(rest: &Rest) -> [u8; 14]
    requires { rest.now.outgoing.queue.length ≤ 16 }
    ensures { result ≡ small_of rest.now }
{
    let [first, second, third] = rest.replies.bytes;
    [
        rest.outgoing.queue.length as u8,
        rest.outgoing.repeating,
        rest.outgoing.countdown,
        rest.mode.set,
        rest.mode.rate,
        rest.mode.indicators,
        first,
        second,
        third,
        rest.replies.length,
        u8::from(rest.scanning),
        rest.waiting,
        u8::from(rest.handover),
        rest.given,
    ]
}

// All but the arrays,
#[inline(always)]
pub fn put_rest(lent: &mut [u8], rest: &Rest)
    requires { record { size : length lent.old ≡ size; short : rest.now.outgoing.queue.length ≤ 16 } }
    ensures { lent.new ≡ take queue_at lent.old ++ rest_bytes rest.now }
{
    lent[QUEUED..SIZE].copy_from_slice(&small_of(rest));
    lent[QUEUE..QUEUED].copy_from_slice(&rest.outgoing.queue.bytes);
}

// and the held keys,
#[inline(always)]
pub fn put_held(lent: &mut [u8], dock: &Dock)
    requires { record { size : length lent.old ≡ size; short : dock.now.rest.outgoing.queue.length ≤ 16 } }
    ensures { lent.new ≡ take held_at lent.old ++ (dock.now.held ++ rest_bytes dock.now.rest) }
{
    put_rest(lent, &dock.rest);
    lent[HELD..QUEUE].copy_from_slice(&dock.held);
}

// and the contacts,
#[inline(always)]
pub fn put_contacts(lent: &mut [u8], dock: &Dock)
    requires { record { size : length lent.old ≡ size; short : dock.now.rest.outgoing.queue.length ≤ 16 } }
    ensures { lent.new ≡ take closed_at lent.old ++ (dock.now.closed ++ (dock.now.counts ++ (dock.now.held ++ rest_bytes dock.now.rest))) }
{
    put_held(lent, dock);
    lent[COUNTS..HELD].copy_from_slice(&dock.counts);
    lent[CLOSED..COUNTS].copy_from_slice(&dock.closed);
}

// and the types,
#[inline(always)]
pub fn put_types(lent: &mut [u8], dock: &Dock)
    requires { record { size : length lent.old ≡ size; short : dock.now.rest.outgoing.queue.length ≤ 16 } }
    ensures { lent.new
        ≡ take types_at lent.old ++ (dock.now.types ++ (dock.now.closed ++ (dock.now.counts ++ (dock.now.held ++ rest_bytes dock.now.rest)))) }
{
    put_contacts(lent, dock);
    lent[TYPES..CLOSED].copy_from_slice(&dock.types);
}

// and the map: the whole record.
#[inline(always)]
pub fn put_record(lent: &mut [u8], dock: &Dock)
    requires { record { size : length lent.old ≡ size; short : dock.now.rest.outgoing.queue.length ≤ 16 } }
    ensures { lent.new ≡ bytes_of dock.now }
{
    put_types(lent, dock);
    lent[0..TYPES].copy_from_slice(&dock.map);
}
