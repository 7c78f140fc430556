// The bytes of a key that has one form: no modifier is looked at, and each sequence is written at once. A scan asks here:
// sequences::sequence_of gives the same, but takes 59 to 87 instructions for a key in set 2 where this takes 44 to 55; with_make and
// with_break in the places of make_of and break_of take 75 to 91.
ghost use Rattle.std.specs.Prelude.{◌≡◌, Bool, false, ℕ};
ghost use Rattle.codes.specs.Codes.{make_of, break_of, has_forms, encode};
ghost use Rattle.codes.specs.Sequences.{holding};

use crate::rows::{has_code, may_repeat, sends_release};
use crate::{Action, Sequence};
use keys::code;

// The make of a code and no more, by / and %, as the definitions have it.
#[tactic(auto, unfolding(crate::specs::Sequences::holding, crate::specs::Codes::make_of, crate::specs::Codes::prefix))]
fn make_of(code: u16) -> Sequence
    ensures { result ≡ holding (make_of code) }
{
    let high = (code / 256) as u8;
    let low = (code % 256) as u8;
    if high == 0 {
        return Sequence::of([low]);
    }
    Sequence::of([high, low])
}

// The break of a code and no more.
#[tactic(auto, unfolding(crate::specs::Sequences::holding, crate::specs::Codes::break_of, crate::specs::Codes::prefix))]
fn break_of(set: u8, code: u16) -> Sequence
    ensures { result ≡ holding (break_of set code) }
{
    let high = (code / 256) as u8;
    let low = (code % 256) as u8;
    let top = (code % 128 + 128) as u8;
    match (high, set) {
        (0, 1) => Sequence::of([top]),
        (0, _) => Sequence::of([0xf0, low]),
        (_, 1) => Sequence::of([high, top]),
        _ => Sequence::of([high, 0xf0, low]),
    }
}

// The bytes that an action of such a key sends.
#[tactic(auto, using(crate::proofs::OneForm::one_form, crate::proofs::OneForm::not_at_once, crate::proofs::OneForm::code_plain, crate::proofs::OneForm::nothing_after), unfolding(crate::specs::Codes::encode, crate::specs::Codes::bytes_of, crate::specs::Codes::before))]
pub fn plain_sequence(set: u8, key: u8, action: Action, kind: u8) -> Sequence
    requires { has_forms set key ≡ false }
    ensures { (modifiers : ℕ) (lock : Bool) → result ≡ holding (encode set key action kind modifiers lock) }
{
    if !has_code(set, key) {
        return Sequence::new();
    }
    match action {
        Action::Press => make_of(code(set, key)),
        Action::Release if sends_release(set, kind) => break_of(set, code(set, key)),
        Action::Repeat if may_repeat(set, key, kind) => make_of(code(set, key)),
        _ => Sequence::new(),
    }
}
