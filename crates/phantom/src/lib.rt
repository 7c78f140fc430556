// The phantom test (docs/RULES.md, section 5). Current that finds its way through three closed contacts of a rectangle makes the fourth look closed:
//
//          column i   column j
//   row a     o----------o
//             |          |        three of these four pressed look like all four
//   row b     o----------o
//
// So a scan in which two columns have two rows in common is not to be believed.
#![tactic(auto)]

ghost use Rattle.std.specs.Prelude.{◌≡◌, ℕ, ◌≤◌, slice_index};
ghost use Rattle.phantom.specs.Phantom.{two_closed, is_phantom, any_two_closed, shares_at};

// Two or more rows are closed: one is still there when the lowest is taken away. Of no rows none is left, whatever the number before 0.
// Ones are not counted, as in frames.
#[tactic(auto, using(crate::proofs::Lowest::another_two))]
fn two_closed(rows: u8) -> bool
    ensures { result ≡ two_closed rows }
{
    let before = rows.wrapping_sub(1);
    rows & before != 0
}

// Some column has two or more closed rows. An early exit, as `any` has it, would take the columns one by one. Here and below an `if`
// raises the flag: where tests are or-ed, the compiler counts ones (368 instructions, not 185, for a scan that has every pair to look at).
fn any_two_closed(scan: &[u8; 18]) -> bool
    ensures { result ≡ any_two_closed scan.now }
{
    let mut any = false;
    for rows in scan {
        if two_closed(*rows) {
            any = true;
        }
    }
    any
}

// The columns with as many open ones behind them, so that each has another at every distance.
fn padded(scan: &[u8; 18]) -> [u8; 36]
    ensures { (i : ℕ) → slice_index result i ≡ slice_index scan.now i }
{
    let mut columns = [0u8; 36];
    columns[..18].copy_from_slice(scan);
    columns
}

// One of sixteen columns shares two rows with the one at a distance behind it. An early exit would part the pairs that are taken
// together. By index, since each place is paired with another of the same array.
fn shares_at(columns: &[u8; 36], distance: usize) -> bool
    requires { distance ≤ 18 }
    ensures { result ≡ shares_at 16 distance columns.now }
{
    let mut shared = false;
    for j in 0..16 {
        if two_closed(columns[j] & columns[j + distance]) {
            shared = true;
        }
    }
    shared
}

// A scan is phantom. Most scans have no column with two closed rows, and those are not. The others are searched distance by
// distance and not column by column: the pairs at one distance lie side by side, and the compiler takes sixteen at a time. The
// last two columns are the only pair that this leaves out.
pub fn is_phantom(scan: &[u8; 18]) -> bool
    ensures { result ≡ is_phantom scan.now }
{
    if !any_two_closed(scan) {
        return false;
    }
    let columns = padded(scan);
    let mut found = two_closed(columns[16] & columns[17]);
    for d in 1..18 {
        found |= shares_at(&columns, d);
    }
    found
}
