// Contact history (docs/RULES.md, section 5): a contact turns at the third counted scan in a row that shows it otherwise.
#![tactic(auto)]

ghost use Rattle.std.specs.Prelude.{◌≡◌, ◌*◌, ◌<◌};
ghost use Rattle.basics.specs.Lists.{same};
ghost use Rattle.contacts.specs.Counts.{contacts, next_count, next_closed, renewed, column_counts, column_closed, at_rest, counted_of};

use basics::all_up_to;

// The contacts as they count, laid out as a scan: bit r of column c is the contact at position 8 c + r.
pub type Columns = [u8; 18];

// For each position the counted scans in a row that showed it otherwise; what is over 2 counts as 2.
pub type Counts = [u8; 144];

// So many counted scans in a row against a contact, and the next one turns it.
const ALL_BUT_THE_LAST: u8 = 2;

// A contact that is shown `otherwise` than it counts (its bit, else 0): its count after this scan,
fn next_count(otherwise: u8, count: u8) -> u8
    ensures { result ≡ next_count otherwise 0 count }
{
    match otherwise {
        0 => 0,
        _ if count < ALL_BUT_THE_LAST => count + 1,
        _ => 0,
    }
}

// and its bit if it turns.
fn turning(otherwise: u8, count: u8) -> u8
    ensures { result ≡ next_closed otherwise 0 count }
{
    if count < ALL_BUT_THE_LAST {
        0
    } else {
        otherwise
    }
}

// A column that shows what counts: no row of scans is under way in it any more.
fn still(counts: &mut Counts, column: usize)
    requires { column < 18 }
    ensures { counts.new ≡ renewed (λ row count. 0) (8 * column) 8 counts.old }
{
    let first = 8 * column;
    counts[first..first + 8].fill(0);
}

// A column that shows something else, contact by contact: the column as it then counts. Rows are left at their bits, so that the
// compiler takes all eight at a time. It is never inlined: among the steps of its caller the compiler takes the bits out one by one
// (1162 instructions, not 750, for a scan that changes 41 contacts).
#[inline(never)]
fn stirred(counts: &mut Counts, column: usize, seen: u8, closed: u8) -> u8
    requires { column < 18 }
    ensures contacts { result ≡ column_closed column seen closed counts.old }
    ensures counts { counts.new ≡ column_counts column seen closed counts.old }
{
    let first = 8 * column;
    let mut turned = 0;
    // By index: what is written through `iter_mut` of a part of an array is not known to the proof afterwards.
    for r in 0..8 {
        let otherwise = (seen ^ closed) & (1 << r);
        let count = counts[first + r];
        counts[first + r] = next_count(otherwise, count);
        turned |= turning(otherwise, count);
    }
    closed ^ turned
}

// The scan shows what counts. An early exit, as `==` has it, would take the columns one by one, or ask for the C library's comparison.
fn shows(closed: &Columns, scan: &Columns) -> bool
    ensures { result ≡ same scan.now closed.now }
{
    let mut all = true;
    for (i, seen) in scan.iter().enumerate() {
        all &= *seen == closed[i];
    }
    all
}

// The scan shows what counts, and no row of scans is under way: a scan of an idle panel, or of keys that are held.
#[tactic(auto, unfolding(crate::specs::Counts::at_rest))]
pub fn at_rest(closed: &Columns, counts: &Counts, scan: &Columns) -> bool
    ensures { result ≡ at_rest (contacts closed.now counts.now) scan.now }
{
    shows(closed, scan) && all_up_to(0, counts)
}

// The contacts after a counted scan, in place. Both arrays are lent as the record has them: they travel together in these two alone, and
// definitions name the record's fields.
pub fn count(closed: &mut Columns, counts: &mut Counts, scan: &Columns)
    ensures { contacts closed.new counts.new ≡ counted_of (contacts closed.old counts.old) scan.now }
{
    for (column, seen) in scan.iter().enumerate() {
        if *seen == closed[column] {
            still(counts, column);
        } else {
            closed[column] = stirred(counts, column, *seen, closed[column]);
        }
    }
}
