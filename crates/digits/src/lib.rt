// Upper-case hexadecimal digits, and the numbers in a line (docs/RULES.md, section 12).
#![tactic(auto)]

ghost use Rattle.std.specs.Prelude.{◌≡◌, true, ◌+◌, ◌*◌, ◌<◌, length};
ghost use Rattle.digits.specs.Digits.{is_digit, value_of, all_digits, Digits, byte_at, bytes_from, frame_in, digit_of};

// A digit. The tests are joined without branches, so that a loop over many characters takes sixteen at a time.
fn is_digit(c: u8) -> bool
    ensures { result ≡ is_digit c }
{
    ((b'0' <= c) & (c <= b'9')) | ((b'A' <= c) & (c <= b'F'))
}

// Every character is a digit. An early exit, as `all` has it, would take them one by one.
pub fn all_digits(line: &[u8]) -> bool
    ensures { result ≡ all_digits line.now }
{
    let mut good = true;
    for c in line {
        good &= is_digit(*c);
    }
    good
}

// What a digit stands for.
fn value_of(c: u8) -> u8
    requires { is_digit c ≡ true }
    ensures { result ≡ value_of c }
{
    match c {
        0..=b'9' => c - b'0',
        _ => c - b'A' + 10,
    }
}

// The byte that the digits 2 i and 2 i + 1 stand for.
#[tactic(auto, using(crate::proofs::Characters::digit_at, crate::proofs::Characters::value_at_below_16), unfolding(crate::specs::Digits::byte_at))]
fn byte_at(line: &[u8], i: usize) -> u8
    requires { record { inside : 2 * i + 1 < length line.now; digits : all_digits line.now ≡ true } }
    ensures { result ≡ byte_at line.now i }
{
    let high = value_of(line[2 * i]);
    let low = value_of(line[2 * i + 1]);
    16 * high + low
}

// The bytes of a line of digits: the 18 of a scan, the 144 of a map.
pub fn bytes_in<const N: usize>(line: &[u8]) -> [u8; N]
    requires { Digits (2 * N) line.now }
    ensures { result ≡ bytes_from line.now 0 N }
{
    let mut bytes = [0u8; N];
    for (i, byte) in bytes.iter_mut().enumerate() {
        *byte = byte_at(line, i);
    }
    bytes
}

// The number of a frame.
#[tactic(auto, using(crate::proofs::Characters::digit_at))]
pub fn frame_in(line: &[u8]) -> u32
    requires { Digits 3 line.now }
    ensures { result ≡ frame_in line.now }
{
    let high = u32::from(value_of(line[0]));
    let middle = u32::from(value_of(line[1]));
    let low = u32::from(value_of(line[2]));
    256 * high + 16 * middle + low
}

// The digit of a number below 16.
pub fn digit_of(n: u8) -> u8
    requires { n < 16 }
    ensures { result ≡ digit_of n }
{
    match n {
        0..=9 => b'0' + n,
        _ => b'A' - 10 + n,
    }
}
