// The bench (docs/RULES.md, section 12): lines from standard input go to a dock, and what it answers goes to standard output.
// What a line does is proved in the crate lines, and which characters are printed for it in printing; here text is read, cut into lines,
// and written. The dock's record is in range at power-on, and every line leaves it in range: that is proved, so nothing looks at it again.
#![tactic(auto)]

ghost use Rattle.std.specs.Prelude.{◌≡◌, true, ◌≤◌, length};
ghost use Rattle.range.specs.Range.{in_range};

use record::Dock;
use std::io::{Print, Read, Stdin, Stdout};

// A line of more than 288 characters is malformed whatever they are (`overlong_malformed` in crates/text/proofs/Lengths.antt), so of a line
// that is too long already just enough is kept to show it.
const TOO_LONG: usize = 289;

// A dock, the characters that came, of which the first few were kept of a line that is not at its end, and those to be printed.
#[derive(Drop)]
struct Bench {
    dock: Dock,
    input: [u8; 16384],
    kept: usize,
    out: [u8; 65536],
    ghost good: { in_range dock ≡ true },
    ghost few: { kept ≤ 289 },
}

// Runs the whole lines of a text, and gives how many characters were used, and how many are to be printed. Each line takes at least its
// newline and prints at most four characters, so the output has room. A `while` and no `split`: `text::end_of` finds where a line ends,
// trying the usual lengths first, and a last part without newline is no line.
#[tactic(auto, using(text::proofs::Newlines::line_end_within))]
fn run(dock: &mut Dock, text: &[u8], out: &mut [u8; 65536]) -> (usize, usize)
    requires { record { range : in_range dock.old ≡ true; short : length text.now ≤ 16384 } }
    ensures { (result.0 ≤ length text.now) × (result.1 ≤ 65536) × (in_range dock.new ≡ true) }
{
    let mut at = 0;
    let mut written = 0;
    let mut end = text::end_of(text, 0);
    while end < text.len() {
        let printed = lines::step_in_place(dock, &text[at..end]);
        written = printing::put(out, written, printed);
        at = end + 1;
        end = text::end_of(text, at);
    }
    (at, written)
}

impl Bench {
    // The end of what is at hand after a read: where nothing comes any more, a last line that is not empty gets its newline.
    fn end_after(&mut self, got: usize) -> usize
        ensures { result ≤ 16384 }
    {
        if 0 < got {
            return self.kept + got.min(self.input.len() - self.kept);
        }
        if self.kept == 0 {
            return 0;
        }
        self.input[self.kept] = b'\n';
        self.kept + 1
    }

    // Runs what is at hand, moves the line that is not at its end to the front, and tells whether all was written.
    fn work(&mut self, stdout: &Stdout, end: usize) -> bool
        requires { end ≤ 16384 }
    {
        let Bench {
            dock,
            input,
            kept,
            out,
        } = self;
        let (used, written) = run(dock, &input[..end], out);
        *kept = TOO_LONG.min(end - used);
        input.copy_within(used..used + *kept, 0);
        stdout.write_all(&out[..written]).is_ok()
    }

    // Reads once, and runs what came. When nothing comes any more, the last line was run. Tells whether more may come.
    fn turn(&mut self, stdin: &mut Stdin, stdout: &Stdout) -> bool {
        let got = stdin.read(&mut self.input[self.kept..]).unwrap_or(0);
        let end = self.end_after(got);
        self.work(stdout, end) & (0 < got)
    }
}

// Turns follow each other until nothing more comes, or nothing can be written.
#[tactic(auto, using(range::proofs::PowerOn::power_on_in_range))]
fn main(rt: HostRuntime) {
    let mut bench = Bench {
        dock: record::power::power_on(),
        input: [0; 16384],
        kept: 0,
        out: [0; 65536],
    };
    let mut stdin = rt.stdin();
    let stdout = rt.stdout();
    // A proved loop has to end, and nothing says that input does: the turns are more than any run uses up.
    for _ in 0..u64::MAX {
        if !bench.turn(&mut stdin, &stdout) {
            return;
        }
    }
}
