// The key table: what each of the 125 keys is called on the wire (docs/RULES.md, section 1).
// Whoever wants a code asks `code`, and nothing else names the table. Two other parts have tables of their own, which their proofs
// compute from the rows of the definitions as well: the way back from a code (lookup), and the default types (record::power).
#![tactic(auto)]

ghost use Rattle.std.specs.Prelude.{◌≡◌};
ghost use Rattle.keys.specs.Keys.{laid_out, code_in, mark_of};

// The four types that a key can have in set 3, numbered in the order of the commands F7 to FA. They stay bytes: a type is a byte of the
// record, and what is promised of it (sends_release, may_repeat) holds of every byte.
pub const TYPEMATIC: u8 = 0;

pub const MAKE_BREAK: u8 = 1;

pub const MAKE: u8 = 2;

pub const TYPEMATIC_MAKE_BREAK: u8 = 3;

// Keys are numbered from 1 to this.
pub const LAST_KEY: u8 = 125;

// The keys that the rules call by name: the six modifier keys, the ten cursor keys, which stand from INS to RIGHT, and the three others
// that have forms; and the media keys, which stand from WWW-BACK to the last key and have no code in set 3.
pub const SHIFT_L: u8 = 42;

pub const SHIFT_R: u8 = 53;

pub const CTRL_L: u8 = 54;

pub const ALT_L: u8 = 55;

pub const ALT_R: u8 = 57;

pub const CTRL_R: u8 = 58;

pub const FIRST_CURSOR: u8 = 59;

pub const LAST_CURSOR: u8 = 68;

pub const KEYPAD_SLASH: u8 = 70;

pub const PRINT: u8 = 99;

pub const PAUSE: u8 = 101;

pub const FIRST_MEDIA: u8 = 105;

// Places for something of each key, by its number: place 0 is no key's.
pub const PLACES: usize = LAST_KEY as usize + 1;

// The codes of each key as an array, so that a row is one line.
pub type Table = [[u16; 3]; LAST_KEY as usize];

// Key 1 stands first: its codes in sets 1, 2 and 3. A code above 255 has the prefix E0: 0xe05b is sent as E0 5B. 0 is no code.
// Sheet 004 has the codes; those of LWIN, RWIN and APP are in its table of new keys, those of the media keys in sheets 001 and 003.
// A `static` is read where it lies; a `const` array would be laid out anew at each use.
static KEYS: Table = [
    [0x29, 0x0e, 0x0e], // 1 `
    [0x02, 0x16, 0x16], // 2 1
    [0x03, 0x1e, 0x1e], // 3 2
    [0x04, 0x26, 0x26], // 4 3
    [0x05, 0x25, 0x25], // 5 4
    [0x06, 0x2e, 0x2e], // 6 5
    [0x07, 0x36, 0x36], // 7 6
    [0x08, 0x3d, 0x3d], // 8 7
    [0x09, 0x3e, 0x3e], // 9 8
    [0x0a, 0x46, 0x46], // 10 9
    [0x0b, 0x45, 0x45], // 11 0
    [0x0c, 0x4e, 0x4e], // 12 -
    [0x0d, 0x55, 0x55], // 13 =
    [0x0e, 0x66, 0x66], // 14 BACKSPACE
    [0x0f, 0x0d, 0x0d], // 15 TAB
    [0x10, 0x15, 0x15], // 16 Q
    [0x11, 0x1d, 0x1d], // 17 W
    [0x12, 0x24, 0x24], // 18 E
    [0x13, 0x2d, 0x2d], // 19 R
    [0x14, 0x2c, 0x2c], // 20 T
    [0x15, 0x35, 0x35], // 21 Y
    [0x16, 0x3c, 0x3c], // 22 U
    [0x17, 0x43, 0x43], // 23 I
    [0x18, 0x44, 0x44], // 24 O
    [0x19, 0x4d, 0x4d], // 25 P
    [0x1a, 0x54, 0x54], // 26 [
    [0x1b, 0x5b, 0x5b], // 27 ]
    [0x2b, 0x5d, 0x5c], // 28 \
    [0x3a, 0x58, 0x14], // 29 CAPS
    [0x1e, 0x1c, 0x1c], // 30 A
    [0x1f, 0x1b, 0x1b], // 31 S
    [0x20, 0x23, 0x23], // 32 D
    [0x21, 0x2b, 0x2b], // 33 F
    [0x22, 0x34, 0x34], // 34 G
    [0x23, 0x33, 0x33], // 35 H
    [0x24, 0x3b, 0x3b], // 36 J
    [0x25, 0x42, 0x42], // 37 K
    [0x26, 0x4b, 0x4b], // 38 L
    [0x27, 0x4c, 0x4c], // 39 ;
    [0x28, 0x52, 0x52], // 40 '
    [0x1c, 0x5a, 0x5a], // 41 ENTER
    [0x2a, 0x12, 0x12], // 42 SHIFT_L
    [0x2c, 0x1a, 0x1a], // 43 Z
    [0x2d, 0x22, 0x22], // 44 X
    [0x2e, 0x21, 0x21], // 45 C
    [0x2f, 0x2a, 0x2a], // 46 V
    [0x30, 0x32, 0x32], // 47 B
    [0x31, 0x31, 0x31], // 48 N
    [0x32, 0x3a, 0x3a], // 49 M
    [0x33, 0x41, 0x41], // 50 ,
    [0x34, 0x49, 0x49], // 51 .
    [0x35, 0x4a, 0x4a], // 52 /
    [0x36, 0x59, 0x59], // 53 SHIFT_R
    [0x1d, 0x14, 0x11], // 54 CTRL_L
    [0x38, 0x11, 0x19], // 55 ALT_L
    [0x39, 0x29, 0x29], // 56 SPACE
    [0xe038, 0xe011, 0x39], // 57 ALT_R
    [0xe01d, 0xe014, 0x58], // 58 CTRL_R
    [0xe052, 0xe070, 0x67], // 59 INS
    [0xe053, 0xe071, 0x64], // 60 DEL
    [0xe047, 0xe06c, 0x6e], // 61 HOME
    [0xe04f, 0xe069, 0x65], // 62 END
    [0xe049, 0xe07d, 0x6f], // 63 PAGE UP
    [0xe051, 0xe07a, 0x6d], // 64 PAGE DOWN
    [0xe048, 0xe075, 0x63], // 65 UP
    [0xe04b, 0xe06b, 0x61], // 66 LEFT
    [0xe050, 0xe072, 0x60], // 67 DOWN
    [0xe04d, 0xe074, 0x6a], // 68 RIGHT
    [0x45, 0x77, 0x76], // 69 NUM
    [0xe035, 0xe04a, 0x77], // 70 keypad /
    [0x37, 0x7c, 0x7e], // 71 keypad *
    [0x4a, 0x7b, 0x84], // 72 keypad -
    [0x4e, 0x79, 0x7c], // 73 keypad +
    [0xe01c, 0xe05a, 0x79], // 74 keypad ENTER
    [0x53, 0x71, 0x71], // 75 keypad DEL
    [0x52, 0x70, 0x70], // 76 keypad 0
    [0x4f, 0x69, 0x69], // 77 keypad 1
    [0x50, 0x72, 0x72], // 78 keypad 2
    [0x51, 0x7a, 0x7a], // 79 keypad 3
    [0x4b, 0x6b, 0x6b], // 80 keypad 4
    [0x4c, 0x73, 0x73], // 81 keypad 5
    [0x4d, 0x74, 0x74], // 82 keypad 6
    [0x47, 0x6c, 0x6c], // 83 keypad 7
    [0x48, 0x75, 0x75], // 84 keypad 8
    [0x49, 0x7d, 0x7d], // 85 keypad 9
    [0x01, 0x76, 0x08], // 86 ESC
    [0x3b, 0x05, 0x07], // 87 F1
    [0x3c, 0x06, 0x0f], // 88 F2
    [0x3d, 0x04, 0x17], // 89 F3
    [0x3e, 0x0c, 0x1f], // 90 F4
    [0x3f, 0x03, 0x27], // 91 F5
    [0x40, 0x0b, 0x2f], // 92 F6
    [0x41, 0x83, 0x37], // 93 F7
    [0x42, 0x0a, 0x3f], // 94 F8
    [0x43, 0x01, 0x47], // 95 F9
    [0x44, 0x09, 0x4f], // 96 F10
    [0x57, 0x78, 0x56], // 97 F11
    [0x58, 0x07, 0x5e], // 98 F12
    [0xe037, 0xe07c, 0x57], // 99 PRINT
    [0x46, 0x7e, 0x5f], // 100 SCROLL
    [0xe046, 0xe07e, 0x62], // 101 PAUSE
    [0xe05b, 0xe01f, 0x8b], // 102 LWIN
    [0xe05c, 0xe027, 0x8c], // 103 RWIN
    [0xe05d, 0xe02f, 0x8d], // 104 APP
    [0xe06a, 0xe038, 0], // 105 WWW-BACK
    [0xe069, 0xe030, 0], // 106 WWW-FORWARD
    [0xe068, 0xe028, 0], // 107 WWW-STOP
    [0xe067, 0xe020, 0], // 108 WWW-REFRESH
    [0xe065, 0xe010, 0], // 109 WWW-SEARCH
    [0xe066, 0xe018, 0], // 110 WWW-FAVORITES
    [0xe032, 0xe03a, 0], // 111 WEB/HOME
    [0xe06c, 0xe048, 0], // 112 MAIL
    [0xe020, 0xe023, 0], // 113 MUTE
    [0xe02e, 0xe021, 0], // 114 VOLUME-
    [0xe030, 0xe032, 0], // 115 VOLUME+
    [0xe022, 0xe034, 0], // 116 PLAY/PAUSE
    [0xe024, 0xe03b, 0], // 117 STOP
    [0xe010, 0xe015, 0], // 118 PRE-TRACK
    [0xe019, 0xe04d, 0], // 119 NEXT-TRACK
    [0xe06d, 0xe050, 0], // 120 MEDIA-SELECT
    [0xe06b, 0xe040, 0], // 121 MY-COMPUTER
    [0xe021, 0xe02b, 0], // 122 CALCULATOR
    [0xe05e, 0xe037, 0], // 123 POWER
    [0xe05f, 0xe03f, 0], // 124 SLEEP
    [0xe063, 0xe05e, 0], // 125 WAKE-UP
];

// The code in a row of the table. A number that is no key has none.
#[tactic(auto, using(crate::proofs::Laws::no_key, crate::proofs::Laws::past_the_keys, crate::proofs::Laws::at_its_place), unfolding(crate::specs::Keys::code_in))]
fn code_at(rows: &Table, set: u8, key: u8) -> u16
    requires { rows.now ≡ laid_out }
    ensures { result ≡ code_in set key }
{
    if key == 0 || LAST_KEY < key {
        return 0;
    }
    let [one, two, three] = rows[key as usize - 1];
    match set {
        1 => one,
        2 => two,
        _ => three,
    }
}

// The code of a key: the one place where an action looks into the table. 0 for none and no Option: `code_in` gives it, and `encode` goes
// on with it for a number that is no key.
#[tactic(auto, unfolding(crate::specs::Keys::laid_out, crate::specs::Keys::rows))]
pub fn code(set: u8, key: u8) -> u16
    ensures { result ≡ code_in set key }
{
    code_at(&KEYS, set, key)
}

// The overrun mark of a set (docs/RULES.md, section 7): what is queued, and read, in place of bytes that had no room.
pub fn mark_of(set: u32) -> u8
    ensures { result ≡ mark_of set }
{
    match set {
        1 => 0xff,
        _ => 0x00,
    }
}
