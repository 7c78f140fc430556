// Which form a key takes, by the modifiers and Num Lock at that moment (docs/RULES.md, section 3).
#![tactic(auto)]

ghost use Rattle.std.specs.Prelude.{◌≡◌};
ghost use Rattle.codes.specs.Codes.{shift_form, cursor_form, print_form, pause_form, form_of, has_forms};
ghost use Rattle.codes.specs.Modifiers.{shift_held, control_held, alt_held};

use codes::Form;
use keys::{FIRST_CURSOR, KEYPAD_SLASH, LAST_CURSOR, PAUSE, PRINT};

// A SHIFT is held. Three tests with a name each: one for all would take a number in the place of the name.
fn shift_held(modifiers: u8) -> bool
    ensures { result ≡ shift_held modifiers }
{
    modifiers % 4 != 0
}

// A CTRL is held.
fn control_held(modifiers: u8) -> bool
    ensures { result ≡ control_held modifiers }
{
    modifiers / 4 % 4 != 0
}

// An ALT is held.
fn alt_held(modifiers: u8) -> bool
    ensures { result ≡ alt_held modifiers }
{
    modifiers / 16 % 4 != 0
}

// The form that held SHIFTs give.
#[tactic(auto, unfolding(codes::specs::Codes::shift_form))]
fn by_shifts(modifiers: u8) -> Form
    ensures { result ≡ shift_form modifiers }
{
    match modifiers % 4 {
        0 => Form::Plain,
        1 => Form::ShiftLeft,
        2 => Form::ShiftRight,
        _ => Form::ShiftBoth,
    }
}

// The ten cursor keys.
#[tactic(auto, unfolding(codes::specs::Codes::cursor_form))]
fn of_cursor(modifiers: u8, lock: bool) -> Form
    ensures { result ≡ cursor_form modifiers lock }
{
    if !lock {
        by_shifts(modifiers)
    } else if shift_held(modifiers) {
        Form::Plain
    } else {
        Form::NumLock
    }
}

// PRINT.
#[tactic(auto, unfolding(codes::specs::Codes::print_form))]
fn of_print(modifiers: u8) -> Form
    ensures { result ≡ print_form modifiers }
{
    if alt_held(modifiers) {
        Form::Other
    } else if control_held(modifiers) || shift_held(modifiers) {
        Form::Plain
    } else {
        Form::NumLock
    }
}

// PAUSE.
#[tactic(auto, unfolding(codes::specs::Codes::pause_form))]
fn of_pause(modifiers: u8) -> Form
    ensures { result ≡ pause_form modifiers }
{
    if control_held(modifiers) {
        Form::Other
    } else {
        Form::Plain
    }
}

// The form of any key.
#[tactic(auto, unfolding(codes::specs::Codes::form_of))]
pub fn form_of(set: u8, key: u8, modifiers: u8, lock: bool) -> Form
    ensures { result ≡ form_of set key modifiers lock }
{
    if set == 3 {
        return Form::Plain;
    }
    match key {
        FIRST_CURSOR..=LAST_CURSOR => of_cursor(modifiers, lock),
        KEYPAD_SLASH => by_shifts(modifiers),
        PRINT => of_print(modifiers),
        PAUSE => of_pause(modifiers),
        _ => Form::Plain,
    }
}

// The key has more than one form.
#[tactic(auto, unfolding(codes::specs::Codes::has_forms))]
pub fn has_forms(set: u8, key: u8) -> bool
    ensures { result ≡ has_forms set key }
{
    set != 3
        && matches!(
            key,
            FIRST_CURSOR..=LAST_CURSOR | KEYPAD_SLASH | PRINT | PAUSE
        )
}
