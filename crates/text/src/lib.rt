// The bench's text (docs/RULES.md, section 12): where a line ends, and what kind it is.
#![tactic(auto)]

ghost use Rattle.std.specs.Prelude.{◌≡◌, ◌==◌, ◌≤◌, ◌+◌, length};
ghost use Rattle.std.specs.List.{position};
ghost use Rattle.text.specs.Lines.{kind_of, newline_among, ends_after, line_end};

use digits::all_digits;

// What a line can be. A malformed one is a kind like the others: it has an answer of its own, and is not nothing.
#[derive(Clone, Copy)]
pub enum Kind {
    // Nothing in it.
    Read,
    // 3 digits.
    Frame,
    // 36 digits.
    Scan,
    // 288 digits.
    Map,
    // Anything else.
    Malformed,
}

// What kind a line is, its newline apart. The length is asked first, so that the digits are gone through in a loop of known length.
#[tactic(auto, using(std::proofs::lemmas::Bool::Decides::nat_tests), unfolding(crate::specs::Lines::kind_of))]
pub fn kind_of(line: &[u8]) -> Kind
    ensures { result ≡ kind_of line.now }
{
    match line.len() {
        0 => Kind::Read,
        36 if all_digits(line) => Kind::Scan,
        3 if all_digits(line) => Kind::Frame,
        288 if all_digits(line) => Kind::Map,
        _ => Kind::Malformed,
    }
}

// A newline stands among n characters from a place on. An early exit, as `contains` has it, would take them one by one.
fn newline_among(text: &[u8], at: usize, n: usize) -> bool
    requires { at + n ≤ length text.now }
    ensures { result ≡ newline_among text.now at n }
{
    let mut found = false;
    for c in &text[at..at + n] {
        found |= *c == b'\n';
    }
    found
}

// The first newline, character by character.
fn first_newline(text: &[u8]) -> Option<usize>
    ensures { result ≡ position (λ c. c == 10) text.now }
{
    text.iter().position(|c| *c == b'\n')
}

// The line at a place ends after n characters.
#[tactic(auto, using(crate::proofs::Newlines::ends_past, crate::proofs::Newlines::ends_not, crate::proofs::Newlines::ends_newline))]
fn ends_after(text: &[u8], at: usize, n: usize) -> bool
    requires { at ≤ length text.now }
    ensures { result ≡ ends_after text.now at n }
{
    if text.len() - at <= n {
        return false;
    }
    text[at + n] == b'\n' && !newline_among(text, at, n)
}

// The lengths that lines have. 0 comes first, since a read has nothing before its newline, and then 36, since most lines are scans.
const LENGTHS: [usize; 4] = [0, 36, 3, 288];

// The first newline from a place on, or the end of the text, asked by the text and a place, as `line_end` has them. The lengths that lines
// have are tried first: other lines are searched character by character.
#[tactic(auto, using(crate::proofs::Newlines::ends_there, crate::proofs::Newlines::found_at, std::proofs::lemmas::Slice::between_to_end))]
pub fn end_of(text: &[u8], at: usize) -> usize
    requires { at ≤ length text.now }
    ensures { result ≡ line_end text.now at }
{
    for n in LENGTHS {
        if ends_after(text, at, n) {
            return at + n;
        }
    }
    match first_newline(&text[at..]) {
        Some(n) => at + n,
        None => text.len(),
    }
}
