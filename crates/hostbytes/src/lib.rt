// The bytes that the host and the dock say to each other, by the names of the rules (docs/RULES.md, section 11).
// They are constants and no enum: each is looked at by one match, bytes that are no command among them, and the command that waits stands
// in the record as its byte, so an enum would be one table more, from bytes to its cases, and one back.
#![tactic(auto)]

// From this one on a byte is a command; below it a byte is a value.
pub const FIRST_COMMAND: u8 = 0xed;

pub const INDICATORS: u8 = 0xed;

pub const ECHO: u8 = 0xee;

pub const CHOOSE_SET: u8 = 0xf0;

// In place of a set: which one is in use?
pub const WHICH_SET: u8 = 0;

pub const IDENTIFY: u8 = 0xf2;

pub const RATE: u8 = 0xf3;

pub const ENABLE: u8 = 0xf4;

pub const DISABLE: u8 = 0xf5;

pub const DEFAULTS: u8 = 0xf6;

// Four commands give all keys the types 0 to 3, and three give one key the types 0 to 2.
pub const ALL_TYPES: u8 = 0xf7;

pub const LAST_ALL_TYPES: u8 = 0xfa;

pub const KEY_TYPE: u8 = 0xfb;

pub const LAST_KEY_TYPE: u8 = 0xfd;

pub const RESET: u8 = 0xff;

// To be sent again: asked by either side.
pub const RESEND: u8 = 0xfe;

// Replies: understood; awake and well; and the two bytes of a keyboard's identity.
pub const ACKNOWLEDGED: u8 = 0xfa;

pub const AWAKE: u8 = 0xaa;

pub const IDENTITY: u8 = 0xab;

pub const IDENTITY_END: u8 = 0x83;
