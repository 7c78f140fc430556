// A key goes down or comes up (docs/RULES.md, sections 5 and 6), on a lent dock.
// `Ready` is asked for and no invariant of the record, because `calls` takes any record at all.
#![tactic(auto)]

ghost use Rattle.std.specs.Prelude.{◌≡◌, true, ◌≤◌, ◌<◌, get_or};
ghost use Rattle.basics.specs.Lists.{all_up_to};
ghost use Rattle.keys.specs.Keys.{last_key};
ghost use Rattle.record.specs.Views.{keys_of};
ghost use Rattle.record.specs.Parts.{with_keys};
ghost use Rattle.keying.specs.Changes.{pressed, released, moved, turns_to, rows_to};
ghost use Rattle.keying.specs.Ready.{Ready};

use contacts::Columns;
use keying::let_go;
use keying::repeating::delay_of;
use record::Dock;
use record::held::set_held;
use sending::{send_press, send_release};

// A key is pressed.
fn press(dock: &mut Dock, kind: u8, key: u8)
    requires { record { ready : Ready dock.old; number : key < 144 } }
    ensures { dock.new
        ≡ with_keys dock.old (pressed (keys_of dock.old) dock.old.rest.mode kind key) }
{
    let mode = dock.rest.mode;
    send_press(&dock.held, &mut dock.rest.outgoing.queue, mode, kind, key);
    set_held(&mut dock.held, key, true);
    if codes::rows::may_repeat(mode.set, key, kind) {
        dock.rest.outgoing.repeating = key;
        dock.rest.outgoing.countdown = delay_of(mode.rate);
        return;
    }
    dock.rest.outgoing.repeating = 0;
    dock.rest.outgoing.countdown = 0;
}

// A key is released.
fn release(dock: &mut Dock, kind: u8, key: u8)
    requires { record { ready : Ready dock.old; number : key < 144 } }
    ensures { dock.new
        ≡ with_keys dock.old (released (keys_of dock.old) dock.old.rest.mode kind key) }
{
    let mode = dock.rest.mode;
    send_release(&dock.held, &mut dock.rest.outgoing.queue, mode, kind, key);
    let_go(dock, key);
}

// The contact of a key turned, to closed (1) or to open (0): a number and no bool, as `moved` takes it and `contact` gives it.
fn contact_turned(dock: &mut Dock, key: u8, closed: u8)
    requires { record { ready : Ready dock.old; number : key ≤ last_key } }
    ensures { dock.new
        ≡ with_keys dock.old (moved (keys_of dock.old) dock.old.rest.mode dock.old.types key closed) }
{
    if key == 0 {
        return;
    }
    let kind = dock.types[key as usize];
    if closed == 1 {
        return press(dock, kind, key);
    }
    release(dock, kind, key);
}

// The contacts of a column that turned from what they were: only their rows are visited, the lowest first. A `while` over the bits of a
// byte: each iteration takes the lowest off, and an iterator over them would do the same.
fn column(dock: &mut Dock, c: usize, was: u8)
    requires { record { ready : Ready dock.old; column : c < 18; entries : all_up_to last_key dock.old.map ≡ true } }
    ensures { dock.new
        ≡ with_keys dock.old (rows_to 8 dock.old.rest.mode dock.old.types dock.old.map c was (get_or dock.old.closed c 0) (keys_of dock.old)) }
{
    let is = dock.closed[c];
    let mut turned = (was ^ is) as u32;
    while turned != 0 {
        let r = u32::trailing_zeros(turned) as usize;
        contact_turned(dock, dock.map[8 * c + r], (is >> r) % 2);
        turned = turned & (turned - 1);
    }
}

// All contacts that turned from what they were, in the order of their positions.
pub fn turns(dock: &mut Dock, was: &Columns)
    requires { record { ready : Ready dock.old; entries : all_up_to last_key dock.old.map ≡ true } }
    ensures { dock.new
        ≡ with_keys dock.old (turns_to 144 dock.old.rest.mode dock.old.types dock.old.map was.now dock.old.closed (keys_of dock.old)) }
{
    for (c, before) in was.iter().enumerate() {
        if *before != dock.closed[c] {
            column(dock, c, *before);
        }
    }
}
