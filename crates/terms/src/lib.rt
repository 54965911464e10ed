// What every other crate speaks in: the numbers of refusal, and words carried as numbers.
#![tactic(auto)]

mod refusal;

ghost use Rattle.std.specs.Prelude.{◌≡◌};
ghost use Rattle.terms.specs.Words.{signed, hold_word};

pub use refusal::{Fault, Refusal};

// Numbers of refusal that are still told as such, by the names of specs/Refusals.
pub const OUTSIDE: u8 = 2;

pub const OVER_MEMORY: u8 = 4;

pub const BAD_STATE: u8 = 5;

pub const TOO_FAR: u8 = 6;

pub const BAD_TEXT: u8 = 7;

pub const SHORT_BUFFER: u8 = 12;

// Held to the range of a word.
pub fn hold(z: i32) -> i16
    ensures { result ≡ hold_word z }
{
    if z < -32768 {
        return -32768;
    }
    if 32767 < z {
        return 32767;
    }
    z as i16
}

// The word of a setting marked ±.
pub fn signed(n: u16) -> i16
    ensures { result ≡ signed n }
{
    ((n as i32) - 32768) as i16
}
