// The record in lent bytes, and whether they are one.
ghost use Rattle.std.specs.Prelude.{◌≡◌, ◌+◌, ◌≤◌, true, false, length, MatchOption};
ghost use Rattle.layout.specs.Layout.{size, part, map_in, types_in, closed_in, counts_in, held_in, rest_in, record_in, is_record};

use crate::{
    CLOSED, COUNTDOWN, COUNTS, FIRST_REPLY, GIVEN, HANDOVER, HELD, INDICATORS, QUEUE, QUEUED, RATE,
    REPEATING, REPLIES, SCANNING, SET, SIZE, TYPES, WAITING,
};
use contacts::{Columns, Counts};
use queue::Queue;
use record::{Dock, Held, Map, Mode, Outgoing, Rest, Types};
use replies::Replies;

// As many bytes as a part has, from a place on.
fn part_in<const N: usize>(lent: &[u8], at: usize) -> [u8; N]
    requires { at + N ≤ length lent.now }
    ensures { result ≡ part at N lent.now }
{
    let mut part = [0; N];
    part.copy_from_slice(&lent[at..at + N]);
    part
}

// The arrays, one after the other.
pub fn map_in(lent: &[u8; SIZE]) -> Map
    ensures { result ≡ map_in lent.now }
{
    part_in(lent, 0)
}

pub fn types_in(lent: &[u8; SIZE]) -> Types
    ensures { result ≡ types_in lent.now }
{
    part_in(lent, TYPES)
}

pub fn closed_in(lent: &[u8; SIZE]) -> Columns
    ensures { result ≡ closed_in lent.now }
{
    part_in(lent, CLOSED)
}

pub fn counts_in(lent: &[u8; SIZE]) -> Counts
    ensures { result ≡ counts_in lent.now }
{
    part_in(lent, COUNTS)
}

pub fn held_in(lent: &[u8; SIZE]) -> Held
    ensures { result ≡ held_in lent.now }
{
    part_in(lent, HELD)
}

// All but the arrays.
pub fn rest_in(lent: &[u8; SIZE]) -> Rest
    ensures { result ≡ rest_in lent.now }
{
    Rest {
        outgoing: Outgoing {
            queue: Queue {
                bytes: part_in(lent, QUEUE),
                length: lent[QUEUED] as usize,
            },
            repeating: lent[REPEATING],
            countdown: lent[COUNTDOWN],
        },
        mode: Mode {
            set: lent[SET],
            rate: lent[RATE],
            indicators: lent[INDICATORS],
        },
        replies: Replies {
            bytes: part_in(lent, FIRST_REPLY),
            length: lent[REPLIES],
        },
        scanning: lent[SCANNING] == 1,
        waiting: lent[WAITING],
        handover: lent[HANDOVER] == 1,
        given: lent[GIVEN],
    }
}

// A record's bytes as the record.
pub fn record_in(lent: &[u8; SIZE]) -> Dock
    ensures { result ≡ record_in lent.now }
{
    Dock {
        map: map_in(lent),
        types: types_in(lent),
        closed: closed_in(lent),
        counts: counts_in(lent),
        held: held_in(lent),
        rest: rest_in(lent),
    }
}

// These bytes are a record in its range.
pub fn is_record(lent: &[u8]) -> bool
    ensures { result ≡ is_record lent.now }
{
    match lent.as_array() {
        Some(bytes) => {
            (bytes[SCANNING] <= 1)
                & (bytes[HANDOVER] <= 1)
                & range::all_up_to(keys::LAST_KEY, &bytes[..TYPES])
                & range::is_good_rest(&rest_in(bytes))
        }
        None => false,
    }
}

// The bytes, if they are a record in its range. They are given back, and not the `Option` of a `Dock`: that would be copied three times.
pub fn as_record(lent: &[u8]) -> Option<&[u8; SIZE]>
    ensures { MatchOption result (is_record lent.now ≡ false) (λ bytes. (is_record lent.now ≡ true) × (bytes.now ≡ lent.now)) }
{
    let bytes = lent.as_array()?;
    if is_record(bytes) { Some(bytes) } else { None }
}
