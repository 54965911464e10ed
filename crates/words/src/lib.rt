// The words of a listing: names of fields, ALARMS, and the letters of the kinds.
#![tactic(auto)]

ghost use Rattle.std.specs.Prelude.{◌≡◌, ◌+◌, ◌<◌, ◌^◌, length};
ghost use Rattle.filling.specs.Filling.{Put};
ghost use Rattle.words.specs.Words.{word_count, word_text};
ghost use Rattle.words.specs.Standing.{stands_at};

// The words, by the numbers of specs/Words.
pub const S: u8 = 0;

pub const R: u8 = 1;

pub const PRIORITY: u8 = 2;

pub const I: u8 = 3;

pub const MODE: u8 = 4;

pub const C: u8 = 5;

pub const UNIT: u8 = 6;

pub const ON: u8 = 7;

pub const OFF: u8 = 8;

pub const TIME: u8 = 9;

pub const PRESET: u8 = 10;

pub const U: u8 = 11;

pub const D: u8 = 12;

pub const P: u8 = 13;

pub const RELATION: u8 = 14;

pub const A: u8 = 15;

pub const B: u8 = 16;

pub const X: u8 = 17;

pub const L: u8 = 18;

pub const H: u8 = 19;

pub const ALARMS: u8 = 20;

// The letters of kind 0; those of the other kinds come after them.
pub const LETTERS: u8 = 21;

// The letters of a word.
#[tactic(auto, unfolding(crate::specs::Words::word_text))]
fn text_of(word: u8) -> &'static [u8]
    requires { word < word_count }
    ensures { result.now ≡ word_text word }
{
    match word {
        S => b"S",
        R => b"R",
        PRIORITY => b"PRIORITY",
        I => b"I",
        MODE => b"MODE",
        C => b"C",
        UNIT => b"UNIT",
        ON => b"ON",
        OFF => b"OFF",
        TIME => b"TIME",
        PRESET => b"PRESET",
        U => b"U",
        D => b"D",
        P => b"P",
        RELATION => b"RELATION",
        A => b"A",
        B => b"B",
        X => b"X",
        L => b"L",
        H => b"H",
        ALARMS => b"ALARMS",
        LETTERS => b"BL",
        22 => b"SR",
        23 => b"PL",
        24 => b"AL",
        25 => b"DL",
        26 => b"OS",
        27 => b"FL",
        28 => b"CN",
        29 => b"UD",
        30 => b"CP",
        31 => b"OG",
        32 => b"ZC",
        _ => b"ST",
    }
}

// How many bytes a word has.
pub fn word_size(word: u8) -> usize
    requires { word < word_count }
    ensures { result ≡ length (word_text word) }
{
    text_of(word).len()
}

// Puts a word at a place, and answers the place after it.
pub fn put_word(out: &mut [u8], at: usize, word: u8) -> usize
    requires { (word < word_count) × (at + 8 < 2 ^ 64) }
    ensures { Put (word_text word) out.old at out.new result }
{
    filling::put(out, at, text_of(word))
}

// Whether a word stands in a text at a place.
pub fn word_at(text: &[u8], at: usize, word: u8) -> bool
    requires { word < word_count }
    ensures { result ≡ stands_at (word_text word) text.now at }
{
    match text.get(at..) {
        Some(rest) => rest.starts_with(text_of(word)),
        None => false,
    }
}
