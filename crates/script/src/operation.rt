// The first word of a line.
#[derive(Clone, Copy)]
pub enum Operation {
    Unpack,
    Pack,
    Read,
    Write,
    Mark,
    Worth,
    Account,
    Settle,
    Sheet,
    Windows,
    Numeral,
    Unknown,
}

// The letters of each word, as bytes.
const UNPACK: u64 = 0x75_6e_70_61_63_6b;

const PACK: u64 = 0x70_61_63_6b;

const READ: u64 = 0x72_65_61_64;

const WRITE: u64 = 0x77_72_69_74_65;

const MARK: u64 = 0x6d_61_72_6b;

const WORTH: u64 = 0x77_6f_72_74_68;

const ACCOUNT: u64 = 0x61_63_63_6f_75_6e_74;

const SETTLE: u64 = 0x73_65_74_74_6c_65;

const SHEET: u64 = 0x73_68_65_65_74;

const WINDOWS: u64 = 0x77_69_6e_64_6f_77_73;

const NUMERAL: u64 = 0x6e_75_6d_65_72_61_6c;

fn with_letter(word: u64, letter: u8) -> u64 {
    word % 0x0100_0000_0000_0000 * 256 + letter as u64
}

// The last eight letters of a word, as bytes. So a longer word is none of the above.
fn letters(word: &[u8]) -> u64 {
    let mut all: u64 = 0;
    for k in 0..word.len() {
        all = with_letter(all, word[k]);
    }
    all
}

pub(crate) fn named(word: &[u8]) -> Operation {
    match letters(word) {
        UNPACK => Operation::Unpack,
        PACK => Operation::Pack,
        READ => Operation::Read,
        WRITE => Operation::Write,
        MARK => Operation::Mark,
        WORTH => Operation::Worth,
        ACCOUNT => Operation::Account,
        SETTLE => Operation::Settle,
        SHEET => Operation::Sheet,
        WINDOWS => Operation::Windows,
        NUMERAL => Operation::Numeral,
        _ => Operation::Unknown,
    }
}
