// The dock's entry points (docs/RULES.md): the four calls, each for any record at all. A record out of its range is refused before all
// else (section 9), and a refused call leaves the record as it was. A caller that knows its record to be in range has the calls in
// place, in `scan`, `swap` and `wire`.
#![tactic(auto)]

ghost use Rattle.std.specs.Prelude.{◌≡◌, Ok, Err};
ghost use Rattle.basics.specs.Choice.{pick};
ghost use Rattle.basics.specs.Said.{Answers};
ghost use Rattle.range.specs.Range.{in_range};
ghost use Rattle.dock.specs.declared.Refusal.TheVariants.{BadRecord};
ghost use Rattle.dock.specs.Answers.{answered, answered_says, taken, taken_says};
ghost use Rattle.dock.specs.Scan.{scan_of, scan_said};
ghost use Rattle.dock.specs.Read.{read_of, read_said};
ghost use Rattle.dock.specs.Swap.{swap_of, swap_said};
ghost use Rattle.dock.specs.Frame.{frame_of, frame_said};

use dock::{Given, Refusal};
use record::Dock;
use scan::scan_in_place;
use swap::swap_in_place;
use wire::frame::frame_in_place;
use wire::read::read_in_place;

// A record out of its range is refused. A call asks by a line: a function that is handed the call to do would need a contract over it.
fn check(dock: &Dock) -> Result<(), Refusal>
    ensures { result ≡ pick (in_range dock.now) (Ok tt) (Err BadRecord) }
{
    if range::in_range(dock) {
        return Ok(());
    }
    Err(Refusal::BadRecord)
}

// The scan call.
pub fn scan(dock: &mut Dock, scan: &[u8]) -> Result<(), Refusal>
    ensures { Answers answered_says (answered result dock.new) (scan_of dock.old scan.now) (scan_said dock.old scan.now) }
{
    check(dock)?;
    scan_in_place(dock, scan)
}

// The read call.
#[tactic(auto, using(range::proofs::Ranges::in_range_rest))]
pub fn read(dock: &mut Dock) -> Result<Option<Given>, Refusal>
    ensures { Answers taken_says (taken result dock.new) (read_of dock.old) (read_said dock.old) }
{
    check(dock)?;
    Ok(read_in_place(dock))
}

// The swap call.
pub fn swap(dock: &mut Dock, new: &[u8]) -> Result<(), Refusal>
    ensures { Answers answered_says (answered result dock.new) (swap_of dock.old new.now) (swap_said dock.old new.now) }
{
    check(dock)?;
    swap_in_place(dock, new)
}

// The frame call.
#[tactic(auto, using(range::proofs::Ranges::in_range_rest))]
pub fn frame(dock: &mut Dock, number: u32) -> Result<(), Refusal>
    ensures { Answers answered_says (answered result dock.new) (frame_of dock.old number) (frame_said dock.old number) }
{
    check(dock)?;
    frame_in_place(dock, number)
}
