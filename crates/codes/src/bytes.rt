// Bytes put one after another, as one action sends them.
ghost use Rattle.std.specs.Prelude.{◌≡◌, [], ◌∷◌, ◌<◌, ◌≤◌, take};
ghost use Rattle.codes.specs.Codes.{prefix, make_of, break_of};
ghost use Rattle.codes.specs.Sequences.{holding, adding};

use crate::Sequence;

impl Sequence {
    // No bytes yet.
    #[tactic(auto, unfolding(crate::specs::Sequences::holding))]
    pub fn new() -> Self
        ensures { result ≡ holding [] }
    {
        Sequence {
            bytes: [0; 8],
            length: 0,
        }
    }

    // These bytes.
    #[tactic(auto, using(crate::proofs::Adding::zeros_behind), unfolding(crate::specs::Sequences::holding))]
    pub fn of<const N: usize>(bytes: [u8; N]) -> Self
        requires { N ≤ 8 }
        ensures { result ≡ holding bytes.entry }
    {
        let mut places = [0; 8];
        places[..N].copy_from_slice(&bytes);
        Sequence {
            bytes: places,
            length: N,
        }
    }

    // The bytes as they are sent.
    pub fn as_slice(&self) -> &[u8]
        ensures { result.now ≡ take self.now.length self.now.bytes }
    {
        &self.bytes[..self.length]
    }

    // One byte more.
    #[tactic(auto, unfolding(crate::specs::Sequences::adding))]
    fn with_byte(mut self, byte: u8) -> Self
        requires { self.length < 8 }
        ensures { result ≡ adding self (byte ∷ []) }
    {
        self.bytes[self.length] = byte;
        self.length += 1;
        self
    }

    // E0 where the code has it.
    #[tactic(auto, unfolding(crate::specs::Codes::prefix, crate::specs::Sequences::adding))]
    fn with_prefix(self, code: u16) -> Self
        requires { self.length < 8 }
        ensures { result ≡ adding self (prefix code) }
    {
        if code / 256 == 0 {
            return self;
        }
        self.with_byte((code / 256) as u8)
    }

    // What a code sends when its key goes down.
    #[tactic(auto, using(crate::proofs::Rules::joins), unfolding(crate::specs::Codes::make_of))]
    pub fn with_make(self, code: u16) -> Self
        requires { self.length ≤ 6 }
        ensures { result ≡ adding self (make_of code) }
    {
        self.with_prefix(code).with_byte((code % 256) as u8)
    }

    // What a code sends when its key comes up.
    #[tactic(auto, using(crate::proofs::Rules::joins), unfolding(crate::specs::Codes::break_of))]
    pub fn with_break(self, set: u8, code: u16) -> Self
        requires { self.length ≤ 5 }
        ensures { result ≡ adding self (break_of set code) }
    {
        let prefixed = self.with_prefix(code);
        if set == 1 {
            prefixed.with_byte((code % 128 + 128) as u8)
        } else {
            prefixed.with_byte(0xf0).with_byte((code % 256) as u8)
        }
    }
}
