// How every accepted call ends: an open handover goes on. The range is asked for and no invariant of the record, because `calls` takes any
// record at all.
ghost use Rattle.std.specs.Prelude.{◌≡◌, true};
ghost use Rattle.range.specs.Range.{good_rest};
ghost use Rattle.dock.specs.Closing.{closing};

use record::Dock;

// So an accepted call ends: it does not pay for a handover while none is open.
#[tactic(auto, unfolding(crate::specs::Closing::closing))]
pub fn close_in_place(dock: &mut Dock)
    requires { good_rest dock.old.rest ≡ true }
    ensures { dock.new ≡ closing dock.old }
{
    if dock.rest.handover {
        handover::hand_over(dock);
    }
}
