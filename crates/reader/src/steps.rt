// What a byte does to the sequence that it stands in: the sequence goes on, or it ends with an event.
ghost use Rattle.std.specs.Prelude.{◌≡◌};
ghost use Rattle.reader.specs.Reader.{go_on, ends, moves, ctrl_pause};

use crate::{Answer, Event};

// The sequence goes on, in this state.
pub fn more(state: u32) -> Answer
    ensures { result ≡ go_on state }
{
    Answer {
        state,
        event: Event::More,
    }
}

// The sequence is at its end.
pub fn end(event: Event) -> Answer
    ensures { result ≡ ends event }
{
    Answer { state: 0, event }
}

// A key, if one is found, goes down or comes up.
pub fn moves(down: bool, key: Option<u8>) -> Event
    ensures { result ≡ moves down key }
{
    match key {
        None => Event::Unknown,
        Some(key) if down => Event::Pressed(key),
        Some(key) => Event::Released(key),
    }
}

// PAUSE while a CTRL is held.
pub fn ctrl_pause(down: bool) -> Event
    ensures { result ≡ ctrl_pause down }
{
    if down {
        return Event::PauseStruck;
    }
    Event::Wrapping
}
