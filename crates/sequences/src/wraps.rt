// What a wrapping sends around a key: SHIFTs that seem to come up or go down.
ghost use Rattle.std.specs.Prelude.{◌≡◌, ◌≤◌};
ghost use Rattle.keys.specs.Keys.{left_wrap, right_wrap};
ghost use Rattle.codes.specs.Codes.{before, after};
ghost use Rattle.codes.specs.Sequences.{adding};

use codes::{Form, Sequence};

// The codes of SHIFT_L and of SHIFT_R behind E0.
fn wraps(set: u8) -> (u16, u16)
    ensures { result ≡ (left_wrap set, right_wrap set) }
{
    match set {
        1 => (0xe02a, 0xe036),
        _ => (0xe012, 0xe059),
    }
}

// What a form sends before a make.
#[tactic(auto, using(codes::proofs::Rules::joins), unfolding(codes::specs::Codes::before, codes::specs::Sequences::adding))]
pub(crate) fn with_before(sequence: Sequence, set: u8, form: Form) -> Sequence
    requires { sequence.length ≤ 2 }
    ensures { result ≡ adding sequence (before set form) }
{
    let (left, right) = wraps(set);
    match form {
        Form::Plain | Form::Other => sequence,
        Form::ShiftLeft => sequence.with_break(set, left),
        Form::ShiftRight => sequence.with_break(set, right),
        Form::ShiftBoth => sequence.with_break(set, left).with_break(set, right),
        Form::NumLock => sequence.with_make(left),
    }
}

// What a form sends after a break: the same undone, last first. It stays a match of its own: in one for both, each arm would ask which it
// is.
#[tactic(auto, using(codes::proofs::Rules::joins), unfolding(codes::specs::Codes::after, codes::specs::Sequences::adding))]
pub(crate) fn with_after(sequence: Sequence, set: u8, form: Form) -> Sequence
    requires { sequence.length ≤ 4 }
    ensures { result ≡ adding sequence (after set form) }
{
    let (left, right) = wraps(set);
    match form {
        Form::Plain | Form::Other => sequence,
        Form::ShiftLeft => sequence.with_make(left),
        Form::ShiftRight => sequence.with_make(right),
        Form::ShiftBoth => sequence.with_make(right).with_make(left),
        Form::NumLock => sequence.with_break(set, left),
    }
}
