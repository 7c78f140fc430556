// Which key has a code (docs/RULES.md, section 1): the key table read backwards, so that nobody has to search it.
#![tactic(auto)]

mod tables; // tables.rt: the key of each code byte

ghost use Rattle.std.specs.Prelude.{◌≡◌, ◌+◌, ℕ, get_or};
ghost use Rattle.lookup.specs.Lookup.{key_with, found};

use tables::{ALONE_IN_SET1, ALONE_IN_SET2, ALONE_IN_SET3, BEHIND_E0_IN_SET1, BEHIND_E0_IN_SET2};

// The key that stands in a table at the place of a byte.
fn key_at(keys: &[u8], byte: u8) -> Option<u8>
    ensures { result ≡ found (get_or keys.now byte 0) }
{
    match keys.get(usize::from(byte)) {
        None | Some(0) => None,
        Some(key) => Some(*key),
    }
}

// A set of codes.
pub trait Set {
    ghost number: { ℕ };

    // The key whose code is a byte sent alone.
    fn key(byte: u8) -> Option<u8>
        ensures { result ≡ found (key_with number byte) };
}

// A set that has codes behind E0 as well.
pub trait Prefixed: Set {
    // The key whose code is a byte sent behind E0.
    fn key_behind_e0(byte: u8) -> Option<u8>
        ensures { result ≡ found (key_with Self.number (0xe000 + byte)) };
}

// Set 1.
pub struct Set1;

#[tactic(auto, using(crate::proofs::Entries::alone_in_set1))]
impl Set for Set1 {
    ghost number = { 1 };

    fn key(byte: u8) -> Option<u8> {
        key_at(&ALONE_IN_SET1, byte)
    }
}

#[tactic(auto, using(crate::proofs::Entries::behind_e0_in_set1))]
impl Prefixed for Set1 {
    fn key_behind_e0(byte: u8) -> Option<u8> {
        key_at(&BEHIND_E0_IN_SET1, byte)
    }
}

// Set 2.
pub struct Set2;

#[tactic(auto, using(crate::proofs::Entries::alone_in_set2))]
impl Set for Set2 {
    ghost number = { 2 };

    fn key(byte: u8) -> Option<u8> {
        key_at(&ALONE_IN_SET2, byte)
    }
}

#[tactic(auto, using(crate::proofs::Entries::behind_e0_in_set2))]
impl Prefixed for Set2 {
    fn key_behind_e0(byte: u8) -> Option<u8> {
        key_at(&BEHIND_E0_IN_SET2, byte)
    }
}

// Set 3.
pub struct Set3;

#[tactic(auto, using(crate::proofs::Entries::alone_in_set3))]
impl Set for Set3 {
    ghost number = { 3 };

    fn key(byte: u8) -> Option<u8> {
        key_at(&ALONE_IN_SET3, byte)
    }
}
