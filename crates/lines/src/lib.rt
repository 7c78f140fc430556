// The bench's lines (docs/RULES.md, section 12): what a line asks of the dock, and what is printed for it.
#![tactic(auto)]

ghost use Rattle.std.specs.Prelude.{◌≡◌, true};
ghost use Rattle.basics.specs.Said.{Answers};
ghost use Rattle.range.specs.Range.{in_range};
ghost use Rattle.lines.specs.Steps.{stepped, step_of, stepped_says, step_said};

use dock::Refusal;
use printing::{Printed, answer_prints, read_prints};
use record::Dock;
use text::Kind;

// The number that a malformed line is refused with.
const MALFORMED: u8 = 8;

// One line, without its newline, on a lent dock in its range: asked for and no invariant, because `step` takes any dock at all.
#[tactic(auto, using(range::proofs::Ranges::in_range_rest, text::proofs::Lengths::frame_is, text::proofs::Lengths::scan_is, text::proofs::Lengths::map_is, dock::proofs::Framing::frame_taken, dock::proofs::Reading::read_done), unfolding(crate::specs::Steps::step_of))]
pub fn step_in_place(dock: &mut Dock, line: &[u8]) -> Printed
    requires { in_range dock.old ≡ true }
    ensures { stepped dock.new result ≡ step_of dock.old line.now }
{
    match text::kind_of(line) {
        Kind::Read => read_prints(Ok(wire::read::read_in_place(dock))),
        Kind::Frame => answer_prints(wire::frame::frame_in_place(dock, digits::frame_in(line))),
        Kind::Scan => answer_prints(scan::scan_in_place(dock, &digits::bytes_in::<18>(line))),
        Kind::Map => answer_prints(swap::swap_in_place(dock, &digits::bytes_in::<144>(line))),
        Kind::Malformed => Err(MALFORMED),
    }
}

// One line, without its newline, on any lent dock. One out of its range is refused whatever the line is.
pub fn step(dock: &mut Dock, line: &[u8]) -> Printed
    ensures { Answers stepped_says (stepped dock.new result) (step_of dock.old line.now) (step_said dock.old line.now) }
{
    if !range::in_range(dock) {
        return Err(Refusal::BadRecord.number());
    }
    step_in_place(dock, line)
}
