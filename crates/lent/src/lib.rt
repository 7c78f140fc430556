// The dock's calls on a record that is lent as bytes (docs/RULES.md, section 14). Bytes that are no record are refused before all else; a
// record is copied, the call is made in place on the copy, and the parts that it can change are put back: they lie at the end.
#![tactic(auto)]

ghost use Rattle.std.specs.Prelude.{◌≡◌, true, Ok};
ghost use Rattle.dock.specs.Calls.{Scan, Swap, Frame, Read};
ghost use Rattle.layout.specs.Layout.{is_record};
ghost use Rattle.lent.specs.Lent.{answer_number, given_number, number_for, bytes_after, power_number, power_bytes, indicators_number, scanning_number};

use dock::{Given, Refusal};
use layout::SIZE;
use layout::reading::{
    as_record, closed_in, counts_in, held_in, is_record, map_in, rest_in, types_in,
};
use layout::writing::{put_contacts, put_held, put_record, put_types};
use record::Dock;
use record::power::power_on;
use scan::scan_in_place;
use swap::swap_in_place;
use wire::frame::frame_in_place;
use wire::read::read_in_place;

// Minus the number of `Refusal::BadRecord`.
const NO_RECORD: i32 = -9;

// Minus the number of a refusal, 0 for what is accepted.
fn answer_number(answer: Result<(), Refusal>) -> i32
    ensures { result ≡ answer_number answer }
{
    match answer {
        Ok(()) => 0,
        Err(refusal) => -i32::from(refusal.number()),
    }
}

// The kind of the byte given and the byte, 0 where there is none.
fn given_number(given: Option<Given>) -> i32
    ensures { result ≡ given_number (Ok given) }
{
    match given {
        None => 0,
        Some(Given::Reply(byte)) => 256 + i32::from(byte),
        Some(Given::KeyByte(byte)) => 512 + i32::from(byte),
    }
}

// Power-on, whatever the bytes were.
pub fn keydock_power_on(lent: &mut [u8]) -> i32
    ensures answer { result ≡ power_number lent.old }
    ensures bytes { lent.new ≡ power_bytes lent.old }
{
    if lent.len() != SIZE {
        return NO_RECORD;
    }
    put_record(lent, &power_on());
    0
}

// The record in lent bytes, copied part by part. A macro, since what a function gives is put together in one place and copied from there: a
// read, tried with `record_in`, took a hundred instructions more.
macro_rules! copied {
    ($lent:ident) => {
        Dock {
            map: map_in($lent),
            types: types_in($lent),
            closed: closed_in($lent),
            counts: counts_in($lent),
            held: held_in($lent),
            rest: rest_in($lent),
        }
    };
}

// A scan of the panel. Map and types stay. This and the next three are two functions each: in one, with a way out before the copy, the
// compiler would clear the place of the copy first. They are written out, since a function that is handed the call to make would need a
// contract over it.
pub fn keydock_scan(lent: &mut [u8], scan: &[u8]) -> i32
    ensures answer { result ≡ number_for (Scan scan.now) lent.old }
    ensures bytes { lent.new ≡ bytes_after (Scan scan.now) lent.old }
{
    match lent.as_mut_array() {
        Some(record) if is_record(record) => scan_record(record, scan),
        Some(_) => NO_RECORD,
        None => NO_RECORD,
    }
}

// The same of a record, which is copied.
fn scan_record(lent: &mut [u8; SIZE], scan: &[u8]) -> i32
    requires { is_record lent.old ≡ true }
    ensures answer { result ≡ number_for (Scan scan.now) lent.old }
    ensures bytes { lent.new ≡ bytes_after (Scan scan.now) lent.old }
{
    let mut dock = copied!(lent);
    let answer = scan_in_place(&mut dock, scan);
    put_contacts(lent, &dock);
    answer_number(answer)
}

// Another panel.
pub fn keydock_swap(lent: &mut [u8], new: &[u8]) -> i32
    ensures answer { result ≡ number_for (Swap new.now) lent.old }
    ensures bytes { lent.new ≡ bytes_after (Swap new.now) lent.old }
{
    match lent.as_mut_array() {
        Some(record) if is_record(record) => swap_record(record, new),
        Some(_) => NO_RECORD,
        None => NO_RECORD,
    }
}

// The same of a record, which is copied.
fn swap_record(lent: &mut [u8; SIZE], new: &[u8]) -> i32
    requires { is_record lent.old ≡ true }
    ensures answer { result ≡ number_for (Swap new.now) lent.old }
    ensures bytes { lent.new ≡ bytes_after (Swap new.now) lent.old }
{
    let mut dock = copied!(lent);
    let answer = swap_in_place(&mut dock, new);
    put_record(lent, &dock);
    answer_number(answer)
}

// A frame from the host. The map stays.
pub fn keydock_frame(lent: &mut [u8], number: u32) -> i32
    ensures answer { result ≡ number_for (Frame number) lent.old }
    ensures bytes { lent.new ≡ bytes_after (Frame number) lent.old }
{
    match lent.as_mut_array() {
        Some(record) if is_record(record) => frame_record(record, number),
        Some(_) => NO_RECORD,
        None => NO_RECORD,
    }
}

// The same of a record, which is copied.
fn frame_record(lent: &mut [u8; SIZE], number: u32) -> i32
    requires { is_record lent.old ≡ true }
    ensures answer { result ≡ number_for (Frame number) lent.old }
    ensures bytes { lent.new ≡ bytes_after (Frame number) lent.old }
{
    let mut dock = copied!(lent);
    let answer = frame_in_place(&mut dock, number);
    put_types(lent, &dock);
    answer_number(answer)
}

// The next byte for the host. A read looks at held keys, types and the rest alone, so only these are copied, beside empty arrays.
pub fn keydock_read(lent: &mut [u8]) -> i32
    ensures answer { result ≡ number_for Read lent.old }
    ensures bytes { lent.new ≡ bytes_after Read lent.old }
{
    match lent.as_mut_array() {
        Some(record) if is_record(record) => read_record(record),
        Some(_) => NO_RECORD,
        None => NO_RECORD,
    }
}

// The same of a record, of which these parts are copied.
fn read_record(lent: &mut [u8; SIZE]) -> i32
    requires { is_record lent.old ≡ true }
    ensures answer { result ≡ number_for Read lent.old }
    ensures bytes { lent.new ≡ bytes_after Read lent.old }
{
    let mut dock = Dock {
        map: [0; 144],
        types: types_in(lent),
        closed: [0; 18],
        counts: [0; 144],
        held: held_in(lent),
        rest: rest_in(lent),
    };
    let given = read_in_place(&mut dock);
    put_held(lent, &dock);
    given_number(given)
}

// The lamps that the host wants lit.
pub fn keydock_indicators(lent: &[u8]) -> i32
    ensures { result ≡ indicators_number lent.now }
{
    match as_record(lent) {
        Some(bytes) => i32::from(rest_in(bytes).mode.indicators),
        None => NO_RECORD,
    }
}

// Whether the host wants scans to be heard.
pub fn keydock_scanning(lent: &[u8]) -> i32
    ensures { result ≡ scanning_number lent.now }
{
    match as_record(lent) {
        Some(bytes) => i32::from(rest_in(bytes).scanning),
        None => NO_RECORD,
    }
}
