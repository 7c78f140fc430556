// The key that repeats.
// `Ready` is asked for and no invariant of the record, because `calls` takes any record at all.
ghost use Rattle.std.specs.Prelude.{◌≡◌, ◌≤◌};
ghost use Rattle.record.specs.Views.{keys_of};
ghost use Rattle.record.specs.Parts.{with_keys};
ghost use Rattle.keying.specs.Ready.{Ready};
ghost use Rattle.keying.specs.Repeat.{delay_of, interval_of, ticked, repeated};

use codes::Action;
use queue::Queue;
use record::Dock;
use sending::bytes_of;

// The scans from a press to its first repeat.
#[tactic(auto, unfolding(crate::specs::Repeat::delay_of))]
pub fn delay_of(rate: u8) -> u8
    requires { rate ≤ 127 }
    ensures { result ≡ delay_of rate }
{
    (rate / 32 + 1) * 60
}

// The scans from a repeat to the next.
#[tactic(auto, using(crate::proofs::Good::interval_small), unfolding(crate::specs::Repeat::interval_of))]
fn interval_of(rate: u8) -> u8
    ensures { result ≡ interval_of rate }
{
    (8 + rate % 8) << (rate / 8 % 4)
}

// One scan less to the next repeat.
pub fn tick(dock: &mut Dock)
    ensures { dock.new ≡ with_keys dock.old (ticked (keys_of dock.old)) }
{
    dock.rest.outgoing.countdown = dock.rest.outgoing.countdown.saturating_sub(1);
}

// A repeat that is due is sent if all is quiet. No flag changes.
pub fn repeat(dock: &mut Dock, quiet: bool)
    requires { Ready dock.old }
    ensures { dock.new
        ≡ with_keys dock.old (repeated (keys_of dock.old) dock.old.rest.mode dock.old.types quiet) }
{
    let key = dock.rest.outgoing.repeating;
    if key == 0 {
        return;
    }
    if dock.rest.outgoing.countdown != 0 {
        return;
    }
    let mode = dock.rest.mode;
    let kind = dock.types[key as usize];
    if !codes::rows::may_repeat(mode.set, key, kind) {
        dock.rest.outgoing.repeating = 0;
        return;
    }
    dock.rest.outgoing.countdown = interval_of(mode.rate);
    if quiet {
        let sequence = bytes_of(&dock.held, mode, kind, key, Action::Repeat);
        dock.rest.outgoing.queue = Queue::empty();
        dock.rest.outgoing.queue.push(sequence, 0);
    }
}
