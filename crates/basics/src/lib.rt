// Words that the definitions of every other part share, and laws about lists and tables that hold for any of them: see specs/ and
// proofs/. One of the words is a test that is made, too.
#![tactic(auto)]

ghost use Rattle.std.specs.Prelude.{◌≡◌};
ghost use Rattle.basics.specs.Lists.{all_up_to};

// No entry is over a limit. The loop keeps a flag and runs to its end, where `all` would stop at the first that is, so that the compiler
// takes sixteen entries at a time.
pub fn all_up_to(limit: u8, list: &[u8]) -> bool
    ensures { result ≡ all_up_to limit list.now }
{
    let mut good = true;
    for entry in list {
        good &= *entry <= limit;
    }
    good
}
