// What the bench prints for an answer, and the characters of it (docs/RULES.md, section 12).
#![tactic(auto)]

ghost use Rattle.std.specs.Prelude.{◌≡◌, ◌≤◌, ◌+◌, length};
ghost use Rattle.printing.specs.Printing.{answer_prints, read_prints, characters, written_at};

use dock::{Given, Refusal};

// What a line prints: nothing, or the frame that a read gave, 0 if it gave none; of a refused one ! and its number. That may be any byte,
// and not only the number of a `Refusal`: the 8 of a malformed line is none, and `put` takes them all.
pub type Printed = Result<Option<u16>, u8>;

// What an answer prints.
pub fn answer_prints(answer: Result<(), Refusal>) -> Printed
    ensures { result ≡ answer_prints answer }
{
    answer.map_err(Refusal::number)?;
    Ok(None)
}

// What a read prints.
pub fn read_prints(given: Result<Option<Given>, Refusal>) -> Printed
    ensures { result ≡ read_prints given }
{
    let frame = match given.map_err(Refusal::number)? {
        None => 0,
        Some(Given::Reply(byte) | Given::KeyByte(byte)) => frames::pack(byte),
    };
    Ok(Some(frame))
}

// Puts what a line prints at a place of the output, and gives the place behind it. Digit by digit, and not by `write!`: a line's characters
// are promised here place by place, and a scan's line prints none.
pub fn put(out: &mut [u8], at: usize, printed: Printed) -> usize
    requires { at + 4 ≤ length out.old }
    ensures { (result ≡ at + length (characters printed)) × (out.new ≡ written_at at (characters printed) out.old) }
{
    match printed {
        Ok(None) => at,
        Ok(Some(frame)) => {
            let line = [
                digits::digit_of((frame / 256 % 16) as u8),
                digits::digit_of((frame / 16 % 16) as u8),
                digits::digit_of((frame % 16) as u8),
                b'\n',
            ];
            out[at..at + 4].copy_from_slice(&line);
            at + 4
        }
        Err(number) => {
            let line = [b'!', digits::digit_of(number % 16), b'\n'];
            out[at..at + 3].copy_from_slice(&line);
            at + 3
        }
    }
}
