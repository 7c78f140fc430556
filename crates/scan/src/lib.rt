// A scan of the panel, in place (docs/RULES.md, sections 5 and 6): the record is lent, and in its range. The range is asked for and no
// invariant of the record, because `calls` takes any record at all.
#![tactic(auto)]

ghost use Rattle.std.specs.Prelude.{◌≡◌, true};
ghost use Rattle.range.specs.Range.{good_rest, in_range};
ghost use Rattle.dock.specs.Answers.{answered};
ghost use Rattle.dock.specs.Scan.{listening, counting, changed, repeating, heard_scan, scan_of};

use contacts::Columns;
use dock::Refusal;
use dock::closing::close_in_place;
use record::Dock;

// Scans are listened to.
#[tactic(auto, unfolding(dock::specs::Scan::listening))]
fn is_listening(dock: &Dock) -> bool
    ensures { result ≡ listening dock.now }
{
    dock.rest.scanning & (dock.rest.waiting == 0) & !dock.rest.handover
}

// A counted scan.
#[tactic(auto, unfolding(dock::specs::Scan::counting))]
fn count(dock: &mut Dock, scan: &Columns)
    requires { in_range dock.old ≡ true }
    ensures { dock.new ≡ counting dock.old scan.now }
{
    let was = dock.closed;
    contacts::count(&mut dock.closed, &mut dock.counts, scan);
    changes::turns(dock, &was);
}

// What a scan changes. One that shows what counts, while no row of scans is under way, changes nothing, phantom or not.
#[tactic(auto, using(dock::proofs::Resting::rest_changes_nothing), unfolding(dock::specs::Scan::changed))]
fn change(dock: &mut Dock, scan: &Columns)
    requires { in_range dock.old ≡ true }
    ensures { dock.new ≡ changed dock.old scan.now }
{
    if contacts::at_rest(&dock.closed, &dock.counts, scan) {
        return;
    }
    if phantom::is_phantom(scan) {
        return;
    }
    count(dock, scan);
}

// The repeat, after the scan's changes.
#[tactic(auto, unfolding(dock::specs::Scan::repeating))]
fn repeat_when_quiet(dock: &mut Dock)
    requires { good_rest dock.old.rest ≡ true }
    ensures { dock.new ≡ repeating dock.old }
{
    let quiet = (dock.rest.replies.length == 0) & (dock.rest.outgoing.queue.length == 0);
    keying::repeating::repeat(dock, quiet);
}

// A scan that is listened to: one scan less to the next repeat, then its changes, then the repeat.
#[tactic(auto, unfolding(dock::specs::Scan::heard_scan))]
fn hear(dock: &mut Dock, scan: &Columns)
    requires { in_range dock.old ≡ true }
    ensures { dock.new ≡ heard_scan dock.old scan.now }
{
    keying::repeating::tick(dock);
    change(dock, scan);
    repeat_when_quiet(dock);
}

// The scan call in place, of a record in its range.
#[tactic(auto, using(range::proofs::Ranges::in_range_rest), unfolding(dock::specs::Scan::scan_of, dock::specs::Scan::scanned))]
pub fn scan_in_place(dock: &mut Dock, scan: &[u8]) -> Result<(), Refusal>
    requires { in_range dock.old ≡ true }
    ensures { answered result dock.new ≡ scan_of dock.old scan.now }
{
    let scan: &Columns = scan.as_array().ok_or(Refusal::ScanLength)?;
    if is_listening(dock) {
        hear(dock, scan);
    } else {
        close_in_place(dock);
    }
    Ok(())
}
