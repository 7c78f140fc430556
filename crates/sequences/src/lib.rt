// The bytes of an action of any key (docs/RULES.md, section 3).
#![tactic(auto)]

mod wraps; // wraps.rt: what a wrapping sends around a key

ghost use Rattle.std.specs.Prelude.{◌≡◌, ◌≤◌};
ghost use Rattle.codes.specs.Codes.{code_of, pause_bytes, pauses_at_once, encode};
ghost use Rattle.codes.specs.Sequences.{holding};

use crate::wraps::{with_after, with_before};
use codes::rows::{has_code, may_repeat, sends_release};
use codes::{Action, Form, Sequence};
use forms::form_of;
use keys::{PAUSE, PRINT};

// The code of a key in a form: PRINT has one of its own with ALT.
#[tactic(auto, unfolding(codes::specs::Codes::code_of))]
fn code_of(set: u8, key: u8, form: Form) -> u16
    ensures { result ≡ code_of set key form }
{
    if key == PRINT && form == Form::Other {
        return if set == 1 { 0x54 } else { 0x84 };
    }
    keys::code(set, key)
}

// All of PAUSE in set 1 or 2, written out.
#[tactic(auto, unfolding(codes::specs::Codes::pause_bytes, codes::specs::Sequences::holding, codes::specs::Codes::make_of, codes::specs::Codes::break_of, codes::specs::Codes::prefix, keys::specs::Keys::code_in, keys::specs::Keys::row_of, keys::specs::Keys::rows))]
fn pause(set: u8, form: Form) -> Sequence
    requires { (1 ≤ set) × (set ≤ 2) }
    ensures { result ≡ holding (pause_bytes set form) }
{
    match (set, form) {
        (1, Form::Other) => Sequence::of([0xe0, 0x46, 0xe0, 0xc6]),
        (1, _) => Sequence::of([0xe1, 0x1d, 0x45, 0xe1, 0x9d, 0xc5]),
        (_, Form::Other) => Sequence::of([0xe0, 0x7e, 0xe0, 0xf0, 0x7e]),
        _ => Sequence::of([0xe1, 0x14, 0x77, 0xe1, 0xf0, 0x14, 0xf0, 0x77]),
    }
}

// PAUSE in set 1 or 2, which sends all on its press.
fn pauses_at_once(set: u8, key: u8) -> bool
    ensures { result ≡ pauses_at_once set key }
{
    key == PAUSE && (set == 1 || set == 2)
}

// The bytes that an action of a key sends. What is asked stays six words: a struct of them would be made only to be handed on, by each of
// the two callers.
#[tactic(auto, using(codes::proofs::Rules::joins, codes::proofs::AtOnce::at_once_range), unfolding(codes::specs::Codes::encode, codes::specs::Codes::bytes_of))]
pub fn sequence_of(
    set: u8,
    key: u8,
    action: Action,
    kind: u8,
    modifiers: u8,
    lock: bool,
) -> Sequence
    ensures { result ≡ holding (encode set key action kind modifiers lock) }
{
    let none = Sequence::new();
    if !has_code(set, key) {
        return none;
    }
    let form = form_of(set, key, modifiers, lock);
    let code = code_of(set, key, form);
    match action {
        Action::Press if pauses_at_once(set, key) => pause(set, form),
        Action::Press => with_before(none, set, form).with_make(code),
        Action::Release if !pauses_at_once(set, key) && sends_release(set, kind) => {
            with_after(none.with_break(set, code), set, form)
        }
        Action::Repeat if may_repeat(set, key, kind) => none.with_make(code),
        _ => none,
    }
}
