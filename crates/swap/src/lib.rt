// Another panel, in place (docs/RULES.md, section 8): the record is lent, and in its range. The range is asked for and no
// invariant of the record, because `calls` takes any record at all.
#![tactic(auto)]

ghost use Rattle.std.specs.Prelude.{◌≡◌, true};
ghost use Rattle.range.specs.Range.{in_range};
ghost use Rattle.dock.specs.Answers.{answered};
ghost use Rattle.dock.specs.Swap.{remapped, swap_of};

use dock::Refusal;
use dock::closing::close_in_place;
use maps::has_double;
use record::{Dock, Map};

// A swap takes the map. The first drops contact history and the repeating key, and a handover opens; while one is open a swap does
// nothing else.
#[tactic(auto, unfolding(dock::specs::Swap::remapped, dock::specs::Swap::opened))]
fn remap(dock: &mut Dock, map: &Map)
    ensures { dock.new ≡ remapped dock.old map.now }
{
    dock.map = *map;
    if dock.rest.handover {
        return;
    }
    dock.closed = [0; 18];
    dock.counts = [0; 144];
    dock.rest.outgoing.repeating = 0;
    dock.rest.outgoing.countdown = 0;
    dock.rest.handover = true;
}

// The swap call in place, of a record in its range.
#[tactic(auto, unfolding(dock::specs::Swap::swap_of, dock::specs::Swap::swapped))]
pub fn swap_in_place(dock: &mut Dock, new: &[u8]) -> Result<(), Refusal>
    requires { in_range dock.old ≡ true }
    ensures { answered result dock.new ≡ swap_of dock.old new.now }
{
    let map: &Map = new.as_array().ok_or(Refusal::MapLength)?;
    if !range::all_up_to(keys::LAST_KEY, map) {
        return Err(Refusal::MapEntry);
    }
    if has_double(map) {
        return Err(Refusal::MapDouble);
    }
    remap(dock, map);
    close_in_place(dock);
    Ok(())
}
